// The linked group: orders of kind A of one participant, each on the floor that its predecessor left. All of them, or none. The
// floor and the first numbers of the trade list are saved once, and put back where a member is refused.
#![tactic(auto)]

ghost use Rattle.std.specs.Prelude.{◌≡◌, ◌++◌, ◌≤◌, drop, length, take};
ghost use Rattle.market.specs.Limits.{lent_at_least};
ghost use Rattle.market.specs.Calls.{linked};
ghost use Rattle.market.specs.Parts.{Carries, Ready};
ghost use Rattle.linked.specs.Group.{Groupable};

use amounts::within;
use codes::next_code;
use market::{
    Access, Answer, Floor, LENT_AT_LEAST, MAX_MEMBERS, MIN_MEMBERS, Refusal, Rules, Ticket,
    TimeInForce,
};
use matching::NUMBERS_PER_TRADE;
use orders::{enter, entry_of, refusal_of};

// The first numbers of the lent list: all that a group can write to.
fn saved(trades: &[u64]) -> [u64; LENT_AT_LEAST]
    requires { lent_at_least ≤ length trades.now }
    ensures { result ≡ take lent_at_least trades.now }
{
    let mut kept = [0u64; LENT_AT_LEAST];
    kept.copy_from_slice(&trades[..LENT_AT_LEAST]);
    kept
}

// The first `count` numbers are put back.
fn restore(kept: [u64; LENT_AT_LEAST], count: usize, trades: &mut [u64])
    requires { (count ≤ lent_at_least) × (count ≤ length trades.old) }
    ensures { trades.new ≡ take count kept ++ drop count trades.old }
{
    trades[..count].copy_from_slice(&kept[..count]);
}

// The members in list order. At the first that is refused, floor and trade list are those before the group. An array and a
// count, as the call has them (`linked participant count members`): what stands past the count is lent, and not read.
fn members_in_turn(
    floor: &mut Floor,
    rules: &Rules,
    participant: u64,
    count: u64,
    members: &[Ticket; 8],
    trades: &mut [u64],
) -> Answer
    requires { Groupable rules.now floor.old count trades.old }
    ensures { Carries rules.now floor.old trades.old (linked participant count members.now) floor.new trades.new result }
{
    let kept = saved(trades);
    // The one copy of the floor: a member may be refused when others have been matched.
    let before = *floor;
    let mut filled = 0;
    let mut made = 0;
    for (i, member) in members[..count as usize].iter().enumerate() {
        let at = made * NUMBERS_PER_TRADE;
        let force = TimeInForce::FillOrKill;
        let asked = refusal_of(floor, rules, participant, *member, Access::Member, force);
        let answer = match asked {
            Err(refusal) => Answer::Refused(refusal.number(), i as u64 + 1),
            Ok(()) => {
                let entry = entry_of(floor, rules, participant, *member);
                enter(floor, rules, entry, force, &mut trades[at..])
            }
        };
        let Answer::Done(_, lots, _, made_here) = answer else {
            *floor = before;
            restore(kept, at, trades);
            return answer;
        };
        filled += lots;
        made += made_here as usize;
    }
    // There are members, so that the participant is known.
    let first = next_code(&before.codes, participant);
    Answer::Done(first, filled, 0, made as u64)
}

pub fn group(
    floor: &mut Floor,
    rules: &Rules,
    participant: u64,
    count: u64,
    members: &[Ticket; 8],
    trades: &mut [u64],
) -> Answer
    requires { Ready rules.now floor.old }
    ensures { Carries rules.now floor.old trades.old (linked participant count members.now) floor.new trades.new result }
{
    if trades.len() < LENT_AT_LEAST {
        return Answer::from(Refusal::ListTooShort);
    }
    if !within(MIN_MEMBERS, MAX_MEMBERS, count) {
        return Answer::from(Refusal::GroupSize);
    }
    members_in_turn(floor, rules, participant, count, members, trades)
}
