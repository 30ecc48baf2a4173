// What is found of a certificate whose text is in order.
ghost use Rattle.std.specs.Prelude.{◌≡◌, List, length};
ghost use Rattle.hose_cert.specs.CertLine.{CertLine};
ghost use Rattle.hose_cert.specs.steps.Draft.{IsBody, IsBodySomehow};
ghost use Rattle.hose_cert.specs.steps.Verdict.{IsFoundOf};

use crate::Verdict;
use crate::draft::Body;
use hose_graph::{Amounts, Topology};
use hose_tree::{cost, is_reservation};

// What is found of a certificate of which all was read: the rules 2 to 6 are tried in order.
pub(crate) fn judge(top: &Topology, body: Body) -> Verdict
    requires { IsBodySomehow top.now body }
    ensures { (lines : List CertLine) → IsBody top.now lines body
        → body.rows.root ≡ length top.now.nodes → IsFoundOf top.now lines result }
{
    let amounts = Amounts::from_vec(body.pairs);
    if !is_reservation(top, &body.hose, &amounts) {
        return Verdict::No { rule: 2 };
    }
    if cost(top, &amounts) != body.cost {
        return Verdict::No { rule: 3 };
    }
    if !body.rows.starts {
        return Verdict::No { rule: 4 };
    }
    if !body.rows.changes {
        return Verdict::No { rule: 5 };
    }
    if !body.rows.weighs {
        return Verdict::No { rule: 6 };
    }
    Verdict::Yes {
        hose: body.hose,
        without: body.without,
        amounts,
        cost: body.cost,
    }
}
