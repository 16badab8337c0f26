// Repurchase offers on the trading day (T-06): which meets which, and what an accepted one does to a lent floor.
#![tactic(auto)]

ghost use Rattle.std.specs.Prelude.{◌≡◌, position};
ghost use Rattle.market.specs.Needs.{price_or};
ghost use Rattle.market.specs.Offers.{meets, offered, same_offer};
ghost use Rattle.market.specs.View.{day_of};
ghost use Rattle.offers.specs.Offering.{FirstParts, Meetable, Offerable, OfferedAs};

use market::{Answer, Floor, Kind, Order, Rules, lots_of};
use matching::{execute, if_buy};
use waiting::append;

// Are these two offers of equal price, rate and term?
fn same_offer(a: Kind, b: Kind) -> bool
    ensures { result ≡ same_offer a b }
{
    match (a, b) {
        (Kind::Offer(rate, term, price), Kind::Offer(yearly, days, other)) => {
            price == other && rate == yearly && term == days
        }
        _ => false,
    }
}

// Is the waiting order a counter offer to the entry? Security, lots, price, rate and term are equal, the sides opposite.
fn is_counter(entry: Order, o: Order) -> bool
    ensures { result ≡ meets entry o }
{
    entry.security == o.security
        && lots_of(entry) == lots_of(o)
        && entry.side != o.side
        && same_offer(entry.kind, o.kind)
}

// Where the oldest counter offer waits.
fn counter_offer(waiting: &[Order], entry: Order) -> Option<usize>
    ensures { result ≡ position (meets entry) waiting.now }
{
    waiting.iter().position(|o| is_counter(entry, *o))
}

// An offer's own price; only an offer is asked for it.
fn offer_price(kind: Kind) -> u64
    ensures { result ≡ price_or 0 kind }
{
    match kind {
        Kind::Kept(price) | Kind::Offer(_, _, price) => price,
        Kind::Closing => 0,
    }
}

// Two offers that meet trade whole, outside Q and T, and give their places up. The entry stands last, its counter offer at `at`.
fn first_part(floor: &mut Floor, rules: &Rules, at: usize, trades: &mut [u64]) -> Answer
    requires { Meetable rules.now floor.old at trades.old }
    ensures { FirstParts rules.now floor.old at trades.old floor.new trades.new result }
{
    let last = floor.count - 1;
    let entry = floor.orders[last];
    let counter = floor.orders[at];
    let buy = if_buy(entry.side, entry, counter);
    let sell = if_buy(entry.side, counter, entry);
    let price = offer_price(entry.kind);
    let lots = lots_of(entry);
    execute(floor, rules, trades, 0, buy, sell, price, lots);
    floor.orders.copy_within(at + 1..last, at);
    floor.count = last - 1;
    Answer::Done(entry.code, lots, 0, 1)
}

// An offer that passed its questions: it meets the oldest counter offer, or waits.
pub fn enter(floor: &mut Floor, rules: &Rules, entry: Order, trades: &mut [u64]) -> Answer
    requires { Offerable rules.now floor.old entry trades.old }
    ensures { OfferedAs (offered (day_of rules.now floor.old) entry) rules.now trades.old floor.new trades.new result }
{
    let place = counter_offer(&floor.orders[..floor.count], entry);
    let placed = append(floor, rules, entry);
    match place {
        None => placed,
        Some(at) => first_part(floor, rules, at, trades),
    }
}
