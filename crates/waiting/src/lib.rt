// What several calls do with an order that waits or enters: its need is blocked or freed, it comes to wait, and it leaves.
#![tactic(auto)]

ghost use Rattle.std.specs.Prelude.{◌≡◌, ◌<◌};
ghost use Rattle.market.specs.Day.{row};
ghost use Rattle.market.specs.Limits.{columns};
ghost use Rattle.market.specs.Needs.{cell_for as cellFor, need};
ghost use Rattle.market.specs.Positions.{block as blocking, release as releasing};
ghost use Rattle.market.specs.Questions.{covered};
ghost use Rattle.market.specs.View.{day_of};
ghost use Rattle.market.specs.Entry.{placed};
ghost use Rattle.market.specs.Waiting.{leave as leaves};
ghost use Rattle.invariant.specs.Standing.{Placeable, Standing};
ghost use Rattle.waiting.specs.Claims.{Blockable, Freeable, Reckonable, moved};

use amounts::{cell_of, need_of};
use market::{Answer, Floor, Order, Rules, Side, lots_of};
use positions::{block, free_of, release};

// What the order needs.
fn need_on(floor: &Floor, rules: &Rules, o: Order) -> u64
    requires { Reckonable (day_of rules.now floor.now) o }
    ensures { result ≡ need rules.now floor.now.turnover o }
{
    need_of(
        rules.listing(o.security),
        floor.turnover[o.security as usize],
        o,
    )
}

// Where it blocks: the cell of its participant's money in the security's currency, or of his pieces of it.
fn cell_for(rules: &Rules, o: Order) -> usize
    requires { (o.participant < columns) × (o.security < columns) × ((row rules.now o.security).currency < columns) }
    ensures { result ≡ cellFor rules.now o }
{
    match o.side {
        Side::Buy => cell_of(o.participant, rules.listing(o.security).row.currency),
        Side::Sell => cell_of(o.participant, o.security),
    }
}

// Question 14. Equality suffices.
pub fn covers(floor: &Floor, rules: &Rules, o: Order) -> bool
    requires { Reckonable (day_of rules.now floor.now) o }
    ensures { result ≡ covered (day_of rules.now floor.now) o }
{
    let need = need_on(floor, rules, o);
    let at = cell_for(rules, o);
    match o.side {
        Side::Buy => need <= free_of(&floor.money, at),
        Side::Sell => need <= free_of(&floor.pieces, at),
    }
}

// What the order needs is blocked.
pub fn block_need(floor: &mut Floor, rules: &Rules, o: Order)
    requires { Blockable (day_of rules.now floor.old) o }
    ensures { floor.new ≡ moved blocking rules.now floor.old o }
{
    let need = need_on(floor, rules, o);
    let at = cell_for(rules, o);
    match o.side {
        Side::Buy => block(&mut floor.money, at, need),
        Side::Sell => block(&mut floor.pieces, at, need),
    }
}

// What the order needs is freed. With the one above in one, the move would be a closure, whose clause is longer than both.
pub fn free_need(floor: &mut Floor, rules: &Rules, o: Order)
    requires { Freeable (day_of rules.now floor.old) o }
    ensures { floor.new ≡ moved releasing rules.now floor.old o }
{
    let need = need_on(floor, rules, o);
    let at = cell_for(rules, o);
    match o.side {
        Side::Buy => release(&mut floor.money, at, need),
        Side::Sell => release(&mut floor.pieces, at, need),
    }
}

// The order at this place leaves, whatever the reason: its need is freed, and each later one moves a place forward.
pub fn leave(floor: &mut Floor, rules: &Rules, at: usize)
    requires { Standing (day_of rules.now floor.old) × (at < floor.old.count) }
    ensures { day_of rules.now floor.new ≡ leaves (day_of rules.now floor.old) at }
{
    free_need(floor, rules, floor.orders[at]);
    let count = floor.count;
    floor.orders.copy_within(at + 1..count, at);
    floor.count = count - 1;
}

// An order that passed its questions and only waits: its need is blocked, its code given.
pub fn append(floor: &mut Floor, rules: &Rules, o: Order) -> Answer
    requires { Standing (day_of rules.now floor.old) × Placeable (day_of rules.now floor.old) o }
    ensures answer { result ≡ (placed (day_of rules.now floor.old) o).answer }
    ensures day { day_of rules.now floor.new ≡ (placed (day_of rules.now floor.old) o).day }
{
    block_need(floor, rules, o);
    floor.orders[floor.count] = o;
    floor.count += 1;
    floor.codes[o.participant as usize] = o.code;
    Answer::Done(o.code, 0, lots_of(o), 0)
}
