// The commands of the program, by their first word.
ghost use Rattle.std.specs.Prelude.{◌≡◌, ◌↔◌, IfNone, IfSome, IsTrue, map};
ghost use Rattle.std.specs.String.{string_bytes};
ghost use Rattle.hosed_requests.specs.ProgramWords.{AsksFor, AsksToServe};
ghost use Rattle.hosed_requests.specs.declared.verb.ProgramVerb.TheVariants as command;

use hose_proto::with_word;

/// What the first word of the program says is to be done, with the words that follow: each
/// command's line of the usage text, in its order. A test of `tools/` compares both with
/// `program_line` of the definitions.
#[derive(Clone, Copy)]
pub enum ProgramVerb {
    /// `run [--tariff NAME] [JOURNAL] < FILE`
    Run,
    /// `audit [--tariff NAME] TOPOLOGY JOURNAL`
    Audit,
    /// `serve [--tariff NAME] TOPOLOGY JOURNAL PORT CONNECTIONS WORKERS`
    Serve,
    /// `prove [--tariff NAME] TOPOLOGY NAME:RATE ..`
    Prove,
    /// `check [--tariff NAME] TOPOLOGY < CERTIFICATE`
    Check,
    /// `price TOPOLOGY < SHEET`
    Price,
    /// `ship [--tariff NAME] TOPOLOGY JOURNAL FROM > PACKETS`
    Ship,
    /// `follow [--tariff NAME] TOPOLOGY JOURNAL < PACKETS`
    Follow,
    /// `move [--tariff NAME] [--live] TOPOLOGY JOURNAL NEW_TOPOLOGY NEW_JOURNAL`
    Move,
    /// `cut [--tariff NAME] TOPOLOGY JOURNAL N NEW_JOURNAL`
    Cut,
    /// `gen SEED NODES LINKS HOSES`
    Generate,
}

const PROGRAM_VERBS: [(ProgramVerb, &[u8]); 11] = [
    (ProgramVerb::Run, b"run"),
    (ProgramVerb::Audit, b"audit"),
    (ProgramVerb::Serve, b"serve"),
    (ProgramVerb::Prove, b"prove"),
    (ProgramVerb::Check, b"check"),
    (ProgramVerb::Price, b"price"),
    (ProgramVerb::Ship, b"ship"),
    (ProgramVerb::Follow, b"follow"),
    (ProgramVerb::Move, b"move"),
    (ProgramVerb::Cut, b"cut"),
    (ProgramVerb::Generate, b"gen"),
];

/// The command whose word is the first one, if there is one.
pub fn verb_of(words: &[String]) -> Option<ProgramVerb>
    ensures some { IfSome result (λ verb. AsksFor verb (map string_bytes words.now)) }
    ensures none { IfNone result
        ((verb : ProgramVerb) → ¬ AsksFor verb (map string_bytes words.now)) }
{
    match words {
        [first, ..] => with_word(&PROGRAM_VERBS, first.as_bytes()),
        [] => None,
    }
}

/// Whether the first word is that of a server.
pub fn asks_to_serve(words: &[String]) -> bool
    ensures { IsTrue result ↔ AsksToServe (map string_bytes words.now) }
{
    match verb_of(words) {
        Some(verb) => is_serve(verb),
        None => false,
    }
}

// Whether a command is to serve.
fn is_serve(verb: ProgramVerb) -> bool
    ensures { IsTrue result ↔ (verb ≡ command.Serve) }
{
    matches!(verb, ProgramVerb::Serve)
}
