// Choices that are told by a word each, as a table has them.
ghost use Rattle.std.specs.Prelude.{◌≡◌, ◌≢◌, ℕ, List, IfErr, IfNone, IfOk, IfSome};
ghost use Rattle.hose_words.specs.steps.Cursor.{Misses, Took};
ghost use Rattle.hose_words.specs.steps.Form.{Each};
ghost use Rattle.hose_words.specs.Words.{IsChoice};
ghost use Rattle.hose_proto.specs.steps.Choices.{IsWordTable, rows_of};

use hose_words::{Cursor, WrongWord};

/// The choice of a table that has this word.
pub fn with_word<W: Copy>(table: &[(W, &[u8])], word: &[u8]) -> Option<W>
    ensures some { (word_of : W → List ℕ) → IsWordTable word_of (rows_of table.now)
        → IfSome result (λ choice. word.now ≡ word_of choice) }
    ensures none { (word_of : W → List ℕ) → IsWordTable word_of (rows_of table.now)
        → IfNone result ((choice : W) → word.now ≢ word_of choice) }
{
    for row in table {
        if row.1 == word {
            return Some(row.0);
        }
    }
    None
}

/// The choice of a table that the next word tells.
pub fn next_choice<W: Copy>(words: &mut Cursor<'_>, table: &[(W, &[u8])]) -> Result<W, WrongWord>
    ensures ok { (word_of : W → List ℕ) → IsWordTable word_of (rows_of table.now)
        → IfOk result (λ choice. Took words.old words.new (word_of choice)) }
    ensures wrong { (word_of : W → List ℕ) → IsWordTable word_of (rows_of table.now)
        → IfErr result (λ wrong. Misses (IsChoice Each word_of) words.old wrong.number) }
{
    let wrong = words.wrong();
    let Some(word) = words.next() else {
        return Err(wrong);
    };
    let Some(choice) = with_word(table, word) else {
        return Err(wrong);
    };
    Ok(choice)
}
