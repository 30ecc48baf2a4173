// One line of a topology's text.
ghost use Rattle.std.specs.Prelude.{◌≡◌, ◌⊎◌, ◌∷◌, [], ◌↔◌, codes, decimal, IfOk, OnOk, IfErr, OnErr, IsTrue};
ghost use Rattle.hose_words.specs.steps.Cursor.{Took, IsWrong, Misses};
ghost use Rattle.hose_words.specs.Words.{IsChoice, words_of};
ghost use Rattle.hose_words.specs.steps.Form.{finish, maybe};
ghost use Rattle.hose_graph.specs.Limit.{IsUpTo};
ghost use Rattle.hose_graph.specs.Network.{IsLink, IsNetwork, IsNodeOf, HasLinkRoom, HasNodeRoom, name_of};
ghost use Rattle.hose_topo.specs.steps.Taken.{TakesWords};
ghost use Rattle.hose_topo.specs.TopologyText.{IsNewName, IsOtherNode, MayCome, kind_word};
ghost use Rattle.hose_topo.specs.steps.TopologyText.{AddsLink, AddsNode, TellsLine, TellsLink, line_form, link_form, node_form, number_form};

use hose_graph::{
    Link, MOST_CAPACITY, MOST_COST, MOST_LENGTH, MOST_LINKS, MOST_NODES, Name, Topology,
};
use hose_words::{Cursor, Keyword, WrongWord};

/// What a line is that is not passed over.
#[derive(Clone, Copy, Debug)]
pub enum LineKind {
    Node,
    Link,
    End,
}

impl Keyword for LineKind {
    ghost word_of = { kind_word };

    fn of(word: &[u8]) -> Option<LineKind> {
        match word {
            b"node" => Some(LineKind::Node),
            b"link" => Some(LineKind::Link),
            b"end" => Some(LineKind::End),
            _ => None,
        }
    }
}

/// What a line of the text did.
pub enum Taken {
    /// It was passed over, or added a node or a link.
    Added,
    /// It ended the text.
    End,
    /// It is wrong at the word of this number.
    Wrong(u64),
}

/// Takes a line into the topology. One that is wrong leaves it as it was.
pub fn take_line(top: &mut Topology, line: &[u8]) -> Taken
    ensures takes { TakesWords result top.old (words_of line.now) top.new }
    ensures network { IsNetwork top.old }
{
    let _nodes = top.nodes();
    let mut words = Cursor::new(line);
    if let None | Some([b'#', ..]) = words.peek() {
        return Taken::Added;
    }
    match take_words(top, &mut words) {
        Ok(LineKind::End) => Taken::End,
        Ok(_) => Taken::Added,
        Err(wrong) => Taken::Wrong(wrong.number),
    }
}

// Takes the words of a line that is not passed over, and says of which kind it is.
fn take_words(top: &mut Topology, words: &mut Cursor<'_>) -> Result<LineKind, WrongWord>
    requires { IsNetwork top.old }
    ensures ok { IfOk result (λ kind. TellsLine top.old kind words.old.left top.new) }
    ensures wrong { IfErr result (λ wrong. IsWrong (line_form top.old) words.old wrong.number) }
    ensures stays { OnErr result (top.new ≡ top.old) }
{
    let kind = next_kind(top, words)?;
    match kind {
        LineKind::Node => add_node(top, words)?,
        LineKind::Link => add_link(top, words)?,
        LineKind::End => words.finish()?,
    }
    Ok(kind)
}

// The kind that the next word tells, where a line of it may come.
fn next_kind(top: &Topology, words: &mut Cursor<'_>) -> Result<LineKind, WrongWord>
    ensures ok { IfOk result (λ kind. Took words.old words.new (kind_word kind)) }
    ensures may { IfOk result (MayCome top.now) }
    ensures wrong { IfErr result
        (λ wrong. Misses (IsChoice (MayCome top.now) kind_word) words.old wrong.number) }
{
    let wrong = words.wrong();
    let kind = words.keyword()?;
    if may_come(top, kind) {
        Ok(kind)
    } else {
        Err(wrong)
    }
}

// Whether a line of this kind may come.
fn may_come(top: &Topology, kind: LineKind) -> bool
    ensures { IsTrue result ↔ MayCome top.now kind }
{
    match kind {
        LineKind::Node => top.nodes() < MOST_NODES,
        LineKind::Link => top.links() < MOST_LINKS,
        LineKind::End => top.nodes() > 0,
    }
}

// The words after `node`.
fn add_node(top: &mut Topology, words: &mut Cursor<'_>) -> Result<(), WrongWord>
    requires { HasNodeRoom top.old }
    ensures ok { OnOk result (AddsNode top.old (codes "node" ∷ words.old.left) top.new) }
    ensures wrong { IfErr result (λ wrong. IsWrong (node_form top.old) words.old wrong.number) }
    ensures stays { OnErr result (top.new ≡ top.old) }
{
    let name = next_new_name(top, words)?;
    words.finish()?;
    top.push_node(name);
    Ok(())
}

// The next word, where it is a name that no node has.
fn next_new_name(top: &Topology, words: &mut Cursor<'_>) -> Result<Name, WrongWord>
    ensures ok { IfOk result (λ name. Took words.old words.new name) }
    ensures is_new { IfOk result (IsNewName top.now) }
    ensures wrong { IfErr result (λ wrong. Misses (IsNewName top.now) words.old wrong.number) }
{
    let wrong = words.wrong();
    let Some(word) = words.next() else {
        return Err(wrong);
    };
    let Some(name) = Name::read(word) else {
        return Err(wrong);
    };
    if top.find(&name).is_some() {
        return Err(wrong);
    }
    Ok(name)
}

// The words after `link`.
fn add_link(top: &mut Topology, words: &mut Cursor<'_>) -> Result<(), WrongWord>
    requires room { HasLinkRoom top.old }
    requires network { IsNetwork top.old }
    ensures ok { OnOk result (AddsLink top.old (codes "link" ∷ words.old.left) top.new) }
    ensures wrong { IfErr result (λ wrong. IsWrong (link_form top.old) words.old wrong.number) }
    ensures stays { OnErr result (top.new ≡ top.old) }
{
    let link = read_link(top, words)?;
    top.push_link(link);
    Ok(())
}

// The link that the words after `link` tell.
fn read_link(top: &Topology, words: &mut Cursor<'_>) -> Result<Link, WrongWord>
    requires { IsNetwork top.now }
    ensures ok { IfOk result (TellsLink top.now (codes "link" ∷ words.old.left)) }
    ensures is_link { IfOk result (IsLink top.now) }
    ensures wrong { IfErr result (λ wrong. IsWrong (link_form top.now) words.old wrong.number) }
{
    let a = next_node(top, words)?;
    let b = next_other_node(top, a, words)?;
    let capacity = words.number_within(1, MOST_CAPACITY)?;
    let length = words.number_within(1, MOST_LENGTH)?;
    let cost = last_cost(words, length)?;
    Ok(Link {
        a,
        b,
        capacity,
        length,
        cost,
    })
}

// The node that the next word names.
fn next_node(top: &Topology, words: &mut Cursor<'_>) -> Result<u32, WrongWord>
    requires { IsNetwork top.now }
    ensures ok { IfOk result (λ node. Took words.old words.new (name_of top.now node)) }
    ensures is_node { IfOk result (IsNodeOf top.now) }
    ensures wrong { IfErr result
        (λ wrong. Misses (IsChoice (IsNodeOf top.now) (name_of top.now)) words.old wrong.number) }
{
    let wrong = words.wrong();
    let Some(word) = words.next() else {
        return Err(wrong);
    };
    let Some(name) = Name::read(word) else {
        return Err(wrong);
    };
    let Some(node) = top.find(&name) else {
        return Err(wrong);
    };
    Ok(node)
}

// The node that the next word names, where it is another one.
fn next_other_node(top: &Topology, a: u32, words: &mut Cursor<'_>) -> Result<u32, WrongWord>
    requires { IsNetwork top.now }
    ensures ok { IfOk result (λ b. Took words.old words.new (name_of top.now b)) }
    ensures other { IfOk result (IsOtherNode top.now a) }
    ensures wrong { IfErr result (λ wrong.
        Misses (IsChoice (IsOtherNode top.now a) (name_of top.now)) words.old wrong.number) }
{
    let wrong = words.wrong();
    let b = next_node(top, words)?;
    if b == a { Err(wrong) } else { Ok(b) }
}

// The cost that the last word tells, where there is one more, or else the length.
fn last_cost(words: &mut Cursor<'_>, length: u64) -> Result<u64, WrongWord>
    ensures ok { IfOk result (λ cost. ((words.old.left ≡ []) × (cost ≡ length))
        ⊎ ((words.old.left ≡ decimal cost ∷ []) × IsUpTo MOST_COST cost)) }
    ensures wrong { IfErr result
        (λ wrong. IsWrong (maybe (number_form MOST_COST finish)) words.old wrong.number) }
{
    let Some(_) = words.peek() else {
        return Ok(length);
    };
    let cost = words.number_within(1, MOST_COST)?;
    words.finish()?;
    Ok(cost)
}
