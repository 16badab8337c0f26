// Continuous trading: the best counter order, one trade, the fill, on a lent floor.
#![tactic(auto)]

ghost use Rattle.std.specs.Prelude.{◌≡◌, ◌+◌, ◌*◌, ◌-◌, ◌≤◌, ◌<◌, length};
ghost use Rattle.market.specs.Limits.{numbers_per_trade};
ghost use Rattle.market.specs.Needs.{kept_price};
ghost use Rattle.market.specs.Positions.{counting};
ghost use Rattle.market.specs.Matching.{better as isBetter, buy_of, fits as doesFit, fitting, fitting_lots, if_buy};
ghost use Rattle.market.specs.Matching.{price_of, reaches as doesReach, sell_of};
ghost use Rattle.matching.specs.Search.{best_of, closer as isCloser, prefer_later, rank as rank_of};
ghost use Rattle.matching.specs.Orders.{FewLots, Takeable, TakenOff};
ghost use Rattle.matching.specs.Written.{trade_as, trade_written};
ghost use Rattle.matching.specs.Execution.{Countable, Executable, Executes, Reckoned, Settles, fall_with, settled};
ghost use Rattle.matching.specs.Filling.{Fillable, Fills};

use amounts::{account_cell, cell_of, fee_of, money_for, need_of, pieces_of};
use market::{Floor, Kind, Listing, Order, Rules, Side, Turnover, lots_of, with_lots};
use positions::{receive, transfer};

// Buy code, sell code, buyer, seller, security, price, lots, sum.
pub const NUMBERS_PER_TRADE: usize = 8;

// What a fill comes to besides the floor: the lots left of the entry, and its trades.
#[derive(Clone, Copy)]
pub struct Matched {
    pub left: u64,
    pub trades: u64,
}

// Index and price of the best counter order.
#[derive(Clone, Copy)]
pub struct Found {
    pub at: usize,
    pub price: u64,
}

// A sell's price is at most the buy's; closing orders have no price and meet each other; an offer meets no order.
fn reaches(side: Side, own: Kind, other: Kind) -> bool
    ensures { result ≡ doesReach side own other }
{
    match (own, other) {
        (Kind::Kept(p), Kind::Kept(q)) => match side {
            Side::Buy => q <= p,
            Side::Sell => p <= q,
        },
        (Kind::Closing, Kind::Closing) => true,
        _ => false,
    }
}

// Is the waiting order a counter order that fits the entry?
fn fits(e: Order, o: Order) -> bool
    ensures { result ≡ doesFit e o }
{
    e.security == o.security && e.side != o.side && reaches(e.side, e.kind, o.kind)
}

// Is the first price better for an entry of this side?
fn better(side: Side, p: u64, q: u64) -> bool
    ensures { result ≡ isBetter side p q }
{
    match side {
        Side::Buy => p < q,
        Side::Sell => q < p,
    }
}

// The price at which an order meets others; only a kept one has such.
fn price_of(kind: Kind) -> u64
    ensures { result ≡ kept_price kind }
{
    match kind {
        Kind::Kept(price) => price,
        _ => 0,
    }
}

// What was found stays unless the order at place `at` fits and is strictly better.
pub fn preferred(e: Order, best: Option<Found>, o: Order, at: usize) -> Option<Found>
    ensures { best_of result ≡ prefer_later e (best_of best) o at }
{
    let price = price_of(o.kind);
    if fits(e, o) && best.is_none_or(|found| better(e.side, price, found.price)) {
        Some(Found { at, price })
    } else {
        best
    }
}

// How far a price is from the best one for an entry of this side.
fn rank(side: Side, price: u64) -> u64
    ensures { result ≡ rank_of side price }
{
    match side {
        Side::Buy => price,
        Side::Sell => u64::MAX - price,
    }
}

// Is the waiting order, whose price has this rank, a counter order with a rank below the bound? Few orders pass the first
// question, and of the others no more is read: the order is lent.
fn closer(e: Order, bound: u64, height: u64, o: &Order) -> bool
    ensures { result ≡ isCloser e bound height o.now }
{
    height < bound
        && e.security == o.security
        && e.side != o.side
        && matches!(o.kind, Kind::Kept(_))
}

// Each trade adds to Q and T.
fn counted(old: Turnover, pieces: u64, value: u64) -> Turnover
    requires { Countable old pieces value }
    ensures { result ≡ counting pieces value old }
{
    Turnover {
        pieces: old.pieces + pieces,
        value: old.value + value,
    }
}

fn lots_fitting(e: Order, o: Order) -> u64
    ensures { result ≡ fitting_lots e o }
{
    if fits(e, o) { lots_of(o) } else { 0 }
}

// The lots of the waiting orders that fit the entry, added up.
pub fn fitting_lots(waiting: &[Order], e: Order) -> u64
    requires { FewLots waiting.now }
    ensures { result ≡ fitting e waiting.now }
{
    let mut sum: u64 = 0;
    for o in waiting {
        sum += lots_fitting(e, *o);
    }
    sum
}

// By how much an order's need falls when lots come off it.
fn fall_of(listing: Listing, turnover: Turnover, order: Order, lots: u64) -> u64
    requires { Reckoned listing turnover order lots }
    ensures { result ≡ fall_with listing turnover order lots }
{
    let rest = with_lots(order, lots_of(order) - lots);
    need_of(listing, turnover, order) - need_of(listing, turnover, rest)
}

// The numbers of a trade, as trade number `at` of the lent list.
fn write_trade(
    trades: &mut [u64],
    at: usize,
    buy: Order,
    sell: Order,
    price: u64,
    lots: u64,
    sum: u64,
)
    requires { numbers_per_trade * at + numbers_per_trade ≤ length trades.old }
    ensures { trades.new ≡ trade_written at (trade_as buy sell price lots sum) trades.old }
{
    let first = at * NUMBERS_PER_TRADE;
    trades[first..first + NUMBERS_PER_TRADE].copy_from_slice(&[
        buy.code,
        sell.code,
        buy.participant,
        sell.participant,
        buy.security,
        price,
        lots,
        sum,
    ]);
}

// Money and pieces change hands, and each side pays the fee to the market. What the buyer's need falls by above the sum and
// his fee returns to his free money; the seller's need falls by the pieces that he sells.
fn settle(
    floor: &mut Floor,
    listing: Listing,
    buy: Order,
    sell: Order,
    fall: u64,
    sum: u64,
    sold: u64,
)
    requires { Settles listing buy sell fall sum sold floor.old.money floor.old.pieces }
    ensures { floor.new ≡ settled listing buy sell fall sum sold floor.old }
{
    let fee = fee_of(listing.rate, sum);
    let currency = listing.row.currency;
    let payer = cell_of(buy.participant, currency);
    let payee = cell_of(sell.participant, currency);
    transfer(&mut floor.money, payer, payee, fall, sum + fee, sum - fee);
    receive(&mut floor.money, account_cell(currency), fee + fee);
    let holder = cell_of(sell.participant, buy.security);
    let taker = cell_of(buy.participant, buy.security);
    transfer(&mut floor.pieces, holder, taker, sold, sold, sold);
}

// A trade, whichever session makes it: positions are settled and the list shows it; the answer is Q and T with it.
pub fn execute(
    floor: &mut Floor,
    rules: &Rules,
    trades: &mut [u64],
    number: usize,
    buy: Order,
    sell: Order,
    price: u64,
    lots: u64,
) -> Turnover
    requires { Executable rules.now floor.old buy sell price lots number trades.old }
    ensures { Executes rules.now floor.old buy sell price lots number trades.old floor.new trades.new result }
{
    let listing = rules.listing(buy.security);
    let turnover = floor.turnover[buy.security as usize];
    let fall = fall_of(listing, turnover, buy, lots);
    let sold = pieces_of(listing.row, lots);
    let value = price * sold;
    let sum = money_for(listing.row, value);
    write_trade(trades, number, buy, sell, price, lots, sum);
    settle(floor, listing, buy, sell, fall, sum, sold);
    counted(turnover, sold, value)
}

// The first order for a buy, the second for a sell.
pub fn if_buy(side: Side, first: Order, second: Order) -> Order
    ensures { result ≡ if_buy side first second }
{
    match side {
        Side::Buy => first,
        Side::Sell => second,
    }
}

// The entry trades with a waiting order, at the waiting order's price.
fn trade_with(
    floor: &mut Floor,
    rules: &Rules,
    trades: &mut [u64],
    number: usize,
    e: Order,
    o: Order,
    lots: u64,
) -> Turnover
    requires { Executable rules.now floor.old (buy_of e o) (sell_of e o) (price_of o) lots number trades.old }
    ensures { Executes rules.now floor.old (buy_of e o) (sell_of e o) (price_of o) lots number trades.old floor.new trades.new result }
{
    let price = price_of(o.kind);
    let buy = if_buy(e.side, e, o);
    let sell = if_buy(e.side, o, e);
    execute(floor, rules, trades, number, buy, sell, price, lots)
}

// Lots come off the order at a place, one of the first `count`; the answer is how many then wait. A filled order gives its
// place up, and each later one moves a place forward.
pub fn take_off(orders: &mut [Order], count: usize, at: usize, lots: u64) -> usize
    requires { Takeable orders.old count at }
    ensures { TakenOff orders.old count at lots orders.new result }
{
    let o = orders[at];
    let waits = lots_of(o);
    if lots < waits {
        orders[at] = with_lots(o, waits - lots);
        return count;
    }
    orders.copy_within(at + 1..count, at);
    count - 1
}

// The fill of an entry whose need is blocked; its code is given here.
pub fn fill(floor: &mut Floor, rules: &Rules, e: Order, trades: &mut [u64]) -> Matched
    requires { Fillable rules.now floor.old e trades.old }
    ensures { Fills rules.now floor.old e trades.old floor.new trades.new result }
{
    floor.codes[e.participant as usize] = e.code;
    let mut left = lots_of(e);
    let mut made: usize = 0;
    // A counter order that fits has a rank below this.
    let reach = rank(e.side, price_of(e.kind)) + 1;
    // Matching ends at the first of: the entry is full, or no waiting counter order fits.
    'fill: while 0 < left {
        // Best price comes first, then earliest arrival: the list is by rising arrival.
        let count = floor.count;
        let mut best = None;
        let mut bound = reach;
        let mut i: usize = 0;
        // Its index stays: document 01 names this search as one that a label leaves.
        let at = 'search: loop {
            if count <= i {
                let Some(found) = best else {
                    break 'fill;
                };
                break 'search found;
            }
            let o = &floor.orders[i];
            let height = rank(e.side, price_of(o.kind));
            if closer(e, bound, height, o) {
                best = Some(i);
                bound = height;
            }
            i += 1;
        };
        let o = floor.orders[at];
        let lots = left.min(lots_of(o));
        let entry = with_lots(e, left);
        let counted = trade_with(floor, rules, trades, made, entry, o, lots);
        floor.turnover[e.security as usize] = counted;
        floor.count = take_off(&mut floor.orders, count, at, lots);
        left -= lots;
        made += 1;
    }
    Matched {
        left,
        trades: made as u64,
    }
}
