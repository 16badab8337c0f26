// The one dispatch: a call is carried out on a lent floor of a sound day.
#![tactic(auto)]

ghost use Rattle.market.specs.Parts.{Carries, Ready, call_of};

use linked::group;
use market::{Answer, Call, Floor, Rules, Ticket};
use orders::{cancel, order};
use reserves::reserve;
use session::{end, enter_closing_order, start};

// A group's members stand beside the call. Trades stand from the start of the lent list on.
pub fn carry_out(
    floor: &mut Floor,
    rules: &Rules,
    call: Call,
    members: &[Ticket; 8],
    trades: &mut [u64],
) -> Answer
    requires { Ready rules.now floor.old }
    ensures { Carries rules.now floor.old trades.old (call_of call members.now) floor.new trades.new result }
{
    match call {
        Call::Reserve(m) => reserve(floor, rules, m),
        Call::Order(p, ticket, force) => order(floor, rules, p, ticket, force, trades),
        Call::Cancel(p, code) => cancel(floor, rules, p, code),
        Call::Group(p, n) => group(floor, rules, p, n, members, trades),
        Call::Start(session) => start(session, floor, rules),
        Call::ClosingOrder(p, side, s, lots) => {
            enter_closing_order(floor, rules, p, side, s, lots)
        }
        Call::End(session) => end(session, floor, rules, trades),
    }
}
