// What the sessions outside continuous trading share, on a lent floor: the first buy with the first sell of a security, over
// and over, and all waiting orders come off.
#![tactic(auto)]

ghost use Rattle.std.specs.Prelude.{◌≡◌};
ghost use Rattle.market.specs.Matching.{best};
ghost use Rattle.market.specs.Pairing.{counterparty as stands_for};
ghost use Rattle.market.specs.View.{day_of};
ghost use Rattle.invariant.specs.Standing.{Standing};
ghost use Rattle.matching.specs.Search.{best_of};
ghost use Rattle.pairing.specs.Leaving.{all_left};
ghost use Rattle.pairing.specs.Pairing.{Pairable, Pairs, decided as areDecided, pair_of};

use market::{Floor, Kind, Order, Rules, Side, lots_of};
use matching::{Found, execute, preferred, take_off};
use waiting::free_need;

// What pairing comes to besides the floor: the lots of its trades, added up, and the trades.
#[derive(Clone, Copy)]
pub struct Tally {
    pub lots: u64,
    pub trades: usize,
}

// The needs of all waiting orders are freed, and none waits any more. Each place of the list keeps its order.
#[tactic(auto, using(market::proofs::View::first_length))]
pub fn free_all(floor: &mut Floor, rules: &Rules)
    requires { Standing (day_of rules.now floor.old) }
    ensures day { day_of rules.now floor.new ≡ all_left (day_of rules.now floor.old) }
    ensures orders { floor.new.orders ≡ floor.old.orders }
{
    for i in 0..floor.count {
        free_need(floor, rules, floor.orders[i]);
    }
    floor.count = 0;
}

// What stands for the other side when the oldest order of a side is looked for.
fn counterparty(side: Side, security: u64, limit: Kind) -> Order
    ensures { result ≡ stands_for side security limit }
{
    Order {
        code: 0,
        participant: 0,
        side,
        lots: 0,
        arrival: 0,
        security,
        kind: limit,
    }
}

// Are both orders found for good? Of closing orders, which have no price, the first found is the best.
fn decided(limit: Kind, buys: Option<Found>, sells: Option<Found>) -> bool
    ensures { result ≡ areDecided limit (best_of buys) (best_of sells) }
{
    matches!(limit, Kind::Closing) && buys.is_some() && sells.is_some()
}

// The places of a buy and a sell that meet.
#[derive(Clone, Copy)]
struct Pair {
    buy: usize,
    sell: usize,
}

// The first buy and the first sell of a security among the waiting orders, unless one side has none. The list is by rising
// arrival, so the first of equal prices is the oldest.
fn first_pair(waiting: &[Order], security: u64, limit: Kind) -> Option<Pair>
    ensures { result ≡ pair_of (best (stands_for Side.Sell security limit) waiting.now) (best (stands_for Side.Buy security limit) waiting.now) }
{
    let seller = counterparty(Side::Sell, security, limit);
    let buyer = counterparty(Side::Buy, security, limit);
    let mut buys = None;
    let mut sells = None;
    for (i, o) in waiting.iter().enumerate() {
        // Of another security's order no more is read.
        if o.security != security {
            continue;
        }
        buys = preferred(seller, buys, *o, i);
        sells = preferred(buyer, sells, *o, i);
        if decided(limit, buys, sells) {
            break;
        }
    }
    Some(Pair {
        buy: buys?.at,
        sell: sells?.at,
    })
}

// The first buy with the first sell of a security, until one side is used up. `limit` and `price` are the terms: which
// orders meet, and at which price. These trades don't enter Q or T. Lots and trades add to those of the tally.
pub fn pair_all(
    floor: &mut Floor,
    rules: &Rules,
    security: u64,
    limit: Kind,
    price: u64,
    trades: &mut [u64],
    tally: &mut Tally,
)
    requires { Pairable rules.now floor.old security (record { limit = limit; price = price }) tally.old trades.old }
    ensures { Pairs rules.now floor.old security (record { limit = limit; price = price }) tally.old trades.old floor.new tally.new trades.new }
{
    while let Some(pair) = first_pair(&floor.orders[..floor.count], security, limit) {
        let buy = floor.orders[pair.buy];
        let sell = floor.orders[pair.sell];
        let lots = lots_of(buy).min(lots_of(sell));
        execute(floor, rules, trades, tally.trades, buy, sell, price, lots);
        // The lots come off the later order first, so that the other keeps its place till then.
        let later = pair.buy.max(pair.sell);
        let earlier = pair.buy.min(pair.sell);
        floor.count = take_off(&mut floor.orders, floor.count, later, lots);
        floor.count = take_off(&mut floor.orders, floor.count, earlier, lots);
        tally.lots += lots;
        tally.trades += 1;
    }
}
