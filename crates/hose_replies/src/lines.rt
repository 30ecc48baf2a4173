// The reply of a line, by its first word: a function for each row of the table of lines.
ghost use Rattle.std.specs.Prelude.{◌≡◌, ◌∷◌, IfOk, IfErr, Err};
ghost use Rattle.hose_words.specs.Words.{IsChoice, IsFirst};
ghost use Rattle.hose_graph.specs.Network.{IsNetwork};
ghost use Rattle.hose_proto.specs.declared.fault.ReadFault.TheVariants.{Memory};
ghost use Rattle.hose_proto.specs.steps.Reading.{IsFaultOf};
ghost use Rattle.hose_replies.specs.declared.head.Head.TheVariants as heads;
ghost use Rattle.hose_replies.specs.steps.Reading.{FailsAt};
ghost use Rattle.hose_replies.specs.steps.ReplyLines.{HasLists, IsReply, epoch_line, head_fields, head_word, lone_line, none_of, number_line, plan_line, reply_form, service_line};

use crate::fields::{
    AtWord, CostWord, EndsWord, InService, LineFields, LinkNumber, LinkTold, LinksWord, LoadWord,
    ManyWord, NoMore, NoSuch, Number, QuotesWord, SideWord, Word,
};
use crate::head::{EpochHead, HEADS, Head, LoneHead, Missing, NumberHead, PlanHead, ServiceHead};
use crate::lists::{TheAmounts, TheEnds, TheNodes, TheNumbers};
use hose_graph::{Amounts, Reply, Topology};
use hose_proto::{Read, next_choice};
use hose_words::Cursor;
use std::alloc::Global;

// `at N`
type AnEpoch = Word<AtWord, Number<NoMore>>;

// `ID cost C at N`, and the fields after that.
type Costed<T> = Number<Word<CostWord, Number<Word<AtWord, Number<T>>>>>;

// The reply that words tell.
pub(crate) fn read_words(alloc: Global, top: &Topology, words: &mut Cursor<'_>) -> Read<Reply>
    requires { IsNetwork top.now }
    ensures ok { IfOk result (IsReply top.now words.old.left) }
    ensures bad { IfErr result (IsFaultOf (reply_form top.now) words.old) }
    ensures memory { result ≡ Err Memory → IsFirst (IsChoice HasLists head_word) words.old.left }
{
    let head = next_choice(words, &HEADS)?;
    read_after(alloc, top, head, words)
}

// The reply of a first word and the words after it.
fn read_after(alloc: Global, top: &Topology, head: Head, words: &mut Cursor<'_>) -> Read<Reply>
    requires { IsNetwork top.now }
    ensures ok { IfOk result (IsReply top.now (head_word head ∷ words.old.left)) }
    ensures fault { IfErr result (FailsAt top.now (head_fields head) words.old) }
{
    match head {
        Head::Epoch(one) => read_epoch(alloc, top, one, words),
        Head::Number(one) => read_number(alloc, top, one, words),
        Head::Service(one) => read_service(alloc, top, one, words),
        Head::Plan(one) => read_plan(alloc, top, one, words),
        Head::Lone(one) => read_lone(alloc, top, one, words),
        Head::Refused => read_refused(alloc, top, words),
        Head::Stale => read_stale(alloc, top, words),
        Head::No => read_missing(alloc, top, words),
        Head::Too => read_too_many(alloc, top, words),
        Head::Vpn => read_shown(alloc, top, words),
        Head::Vpns => read_vpns(alloc, top, words),
        Head::Link => read_link(alloc, top, words),
        Head::Bad => read_bad(alloc, top, words),
    }
}

// ---- several replies of the same fields

fn read_epoch(alloc: Global, top: &Topology, one: EpochHead, words: &mut Cursor<'_>) -> Read<Reply>
    requires { IsNetwork top.now }
    ensures ok { IfOk result (IsReply top.now (head_word (heads.Epoch one) ∷ words.old.left)) }
    ensures fault { IfErr result (FailsAt top.now (head_fields (heads.Epoch one)) words.old) }
{
    let (at, ()) = AnEpoch::read(alloc, top, words)?;
    Ok(epoch_reply(one, at))
}

fn epoch_reply(one: EpochHead, at: u64) -> Reply
    ensures { result ≡ (epoch_line one).1 at }
{
    match one {
        EpochHead::Welcome => Reply::Welcome { at },
        EpochHead::Denied => Reply::Denied { at },
        EpochHead::Full => Reply::Full { at },
        EpochHead::Spent => Reply::Spent { at },
        EpochHead::Disk => Reply::Disk { at },
    }
}

fn read_number(
    alloc: Global,
    top: &Topology,
    one: NumberHead,
    words: &mut Cursor<'_>,
) -> Read<Reply>
    requires { IsNetwork top.now }
    ensures ok { IfOk result (IsReply top.now (head_word (heads.Number one) ∷ words.old.left)) }
    ensures fault { IfErr result (FailsAt top.now (head_fields (heads.Number one)) words.old) }
{
    let (id, (at, ())) = Number::<AnEpoch>::read(alloc, top, words)?;
    Ok(number_reply(one, id, at))
}

fn number_reply(one: NumberHead, id: u64, at: u64) -> Reply
    ensures { result ≡ (number_line one).1 id at }
{
    match one {
        NumberHead::Released => Reply::Released { id, at },
        NumberHead::Newest => Reply::Newest { id, at },
    }
}

fn read_service(
    alloc: Global,
    top: &Topology,
    one: ServiceHead,
    words: &mut Cursor<'_>,
) -> Read<Reply>
    requires { IsNetwork top.now }
    ensures ok { IfOk result (IsReply top.now (head_word (heads.Service one) ∷ words.old.left)) }
    ensures fault { IfErr result (FailsAt top.now (head_fields (heads.Service one)) words.old) }
{
    let (link, (at, ())) = LinkNumber::<AnEpoch>::read(alloc, top, words)?;
    Ok(service_reply(one, link, at))
}

fn service_reply(one: ServiceHead, link: u64, at: u64) -> Reply
    ensures { result ≡ (service_line one).1 link at }
{
    match one {
        ServiceHead::Down => Reply::Down { link, at },
        ServiceHead::Up => Reply::Up { link, at },
        ServiceHead::Already => Reply::Already { link, at },
    }
}

fn read_plan(alloc: Global, top: &Topology, one: PlanHead, words: &mut Cursor<'_>) -> Read<Reply>
    requires { IsNetwork top.now }
    ensures ok { IfOk result (IsReply top.now (head_word (heads.Plan one) ∷ words.old.left)) }
    ensures fault { IfErr result (FailsAt top.now (head_fields (heads.Plan one)) words.old) }
{
    let (id, (cost, (at, amounts))) = Costed::<Word<LinksWord, TheAmounts>>::read(
        alloc, top, words,
    )?;
    Ok(plan_reply(one, (id, cost, at), amounts))
}

fn plan_reply(one: PlanHead, costed: (u64, u64, u64), amounts: Amounts) -> Reply
    ensures { result ≡ (plan_line one).1 costed.0 costed.1 costed.2 amounts }
{
    let (id, cost, at) = costed;
    match one {
        PlanHead::Admitted => Reply::Admitted {
            id,
            cost,
            at,
            amounts,
        },
        PlanHead::Quoted => Reply::Quoted {
            quote: id,
            cost,
            at,
            amounts,
        },
    }
}

fn read_lone(alloc: Global, top: &Topology, one: LoneHead, words: &mut Cursor<'_>) -> Read<Reply>
    requires { IsNetwork top.now }
    ensures ok { IfOk result (IsReply top.now (head_word (heads.Lone one) ∷ words.old.left)) }
    ensures fault { IfErr result (FailsAt top.now (head_fields (heads.Lone one)) words.old) }
{
    NoMore::read(alloc, top, words)?;
    Ok(lone_reply(one))
}

fn lone_reply(one: LoneHead) -> Reply
    ensures { result ≡ (lone_line one).1 }
{
    match one {
        LoneHead::Memory => Reply::Memory,
        LoneHead::Long => Reply::Long,
        LoneHead::Bye => Reply::Bye,
    }
}

// ---- one reply each

fn read_refused(alloc: Global, top: &Topology, words: &mut Cursor<'_>) -> Read<Reply>
    requires { IsNetwork top.now }
    ensures ok { IfOk result (IsReply top.now (head_word heads.Refused ∷ words.old.left)) }
    ensures fault { IfErr result (FailsAt top.now (head_fields heads.Refused) words.old) }
{
    let (at, side) = Word::<AtWord, Number<Word<SideWord, TheNodes>>>::read(alloc, top, words)?;
    Ok(Reply::Refused { at, side })
}

fn read_stale(alloc: Global, top: &Topology, words: &mut Cursor<'_>) -> Read<Reply>
    requires { IsNetwork top.now }
    ensures ok { IfOk result (IsReply top.now (head_word heads.Stale ∷ words.old.left)) }
    ensures fault { IfErr result (FailsAt top.now (head_fields heads.Stale) words.old) }
{
    let (seen, (now, ())) = Number::<Number<NoMore>>::read(alloc, top, words)?;
    Ok(Reply::Stale { seen, now })
}

fn read_missing(alloc: Global, top: &Topology, words: &mut Cursor<'_>) -> Read<Reply>
    requires { IsNetwork top.now }
    ensures ok { IfOk result (IsReply top.now (head_word heads.No ∷ words.old.left)) }
    ensures fault { IfErr result (FailsAt top.now (head_fields heads.No) words.old) }
{
    let (missing, (id, (at, ()))) = NoSuch::<Number<AnEpoch>>::read(alloc, top, words)?;
    Ok(missing_reply(missing, id, at))
}

fn missing_reply(missing: Missing, id: u64, at: u64) -> Reply
    ensures { result ≡ none_of missing id at }
{
    match missing {
        Missing::Vpn => Reply::NoVpn { id, at },
        Missing::Quote => Reply::NoQuote { quote: id, at },
    }
}

fn read_too_many(alloc: Global, top: &Topology, words: &mut Cursor<'_>) -> Read<Reply>
    requires { IsNetwork top.now }
    ensures ok { IfOk result (IsReply top.now (head_word heads.Too ∷ words.old.left)) }
    ensures fault { IfErr result (FailsAt top.now (head_fields heads.Too) words.old) }
{
    let (at, ()) = Word::<ManyWord, Word<QuotesWord, AnEpoch>>::read(alloc, top, words)?;
    Ok(Reply::TooMany { at })
}

fn read_shown(alloc: Global, top: &Topology, words: &mut Cursor<'_>) -> Read<Reply>
    requires { IsNetwork top.now }
    ensures ok { IfOk result (IsReply top.now (head_word heads.Vpn ∷ words.old.left)) }
    ensures fault { IfErr result (FailsAt top.now (head_fields heads.Vpn) words.old) }
{
    let (id, (cost, (at, (hose, amounts)))) = Costed::<Word<EndsWord, TheEnds<TheAmounts>>>::read(
        alloc, top, words,
    )?;
    Ok(Reply::Shown {
        id,
        cost,
        at,
        hose,
        amounts,
    })
}

fn read_vpns(alloc: Global, top: &Topology, words: &mut Cursor<'_>) -> Read<Reply>
    requires { IsNetwork top.now }
    ensures ok { IfOk result (IsReply top.now (head_word heads.Vpns ∷ words.old.left)) }
    ensures fault { IfErr result (FailsAt top.now (head_fields heads.Vpns) words.old) }
{
    let (ids, (at, ())) = TheNumbers::<Number<NoMore>>::read(alloc, top, words)?;
    Ok(Reply::Vpns { at, ids })
}

fn read_link(alloc: Global, top: &Topology, words: &mut Cursor<'_>) -> Read<Reply>
    requires { IsNetwork top.now }
    ensures ok { IfOk result (IsReply top.now (head_word heads.Link ∷ words.old.left)) }
    ensures fault { IfErr result (FailsAt top.now (head_fields heads.Link) words.old) }
{
    let (link, (load, (out, (at, ())))) = LinkTold::<
        Word<LoadWord, Number<InService<Number<NoMore>>>>,
    >::read(alloc, top, words)?;
    Ok(Reply::LinkState {
        link,
        load,
        out,
        at,
    })
}

fn read_bad(alloc: Global, top: &Topology, words: &mut Cursor<'_>) -> Read<Reply>
    requires { IsNetwork top.now }
    ensures ok { IfOk result (IsReply top.now (head_word heads.Bad ∷ words.old.left)) }
    ensures fault { IfErr result (FailsAt top.now (head_fields heads.Bad) words.old) }
{
    let (word, ()) = Number::<NoMore>::read(alloc, top, words)?;
    Ok(Reply::Bad { word })
}
