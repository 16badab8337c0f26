// The auction's price in a security: the written price at which most lots trade.
#![tactic(auto)]

ghost use Rattle.std.specs.Prelude.{◌≡◌, ◌≤◌, cond, length};
ghost use Rattle.market.specs.Limits.{max_waiting};
ghost use Rattle.market.specs.Tests.{◌≤?◌};
ghost use Rattle.market.specs.Auction.{auction_price};
ghost use Rattle.matching.specs.Orders.{FewLots};
ghost use Rattle.auction.specs.Ladder.{FewRungs, ahead, level_of, rung_of, rungs_of};

use market::{Kind, MAX_WAITING, Order, Side, lots_of};

// What an order brings in a security: its price, and its lots on its side.
#[derive(Clone, Copy)]
struct Rung {
    price: u64,
    side: Side,
    lots: u64,
}

// What a price comes to: the lots that trade, and the gap between lots wanted and lots offered.
#[derive(Clone, Copy)]
struct Level {
    price: u64,
    volume: u64,
    gap: u64,
}

// None where the order is of another security or has no price: it takes no part then.
fn rung_of(o: Order, security: u64) -> Option<Rung>
    ensures { result ≡ rung_of security o }
{
    match o.kind {
        Kind::Kept(price) if o.security == security => Some(Rung {
            price,
            side: o.side,
            lots: lots_of(o),
        }),
        _ => None,
    }
}

// The orders are read once: each price is then tried on plain numbers, and no order is copied for it.
fn lay_out<'a>(
    orders: &[Order],
    security: u64,
    ladder: &'a mut [Rung; MAX_WAITING as usize],
) -> &'a [Rung]
    requires { length orders.now ≤ max_waiting }
    ensures { result.now ≡ rungs_of security orders.now }
{
    let mut count: usize = 0;
    for o in orders {
        if let Some(rung) = rung_of(*o, security) {
            ladder[count] = rung;
            count += 1;
        }
    }
    &ladder[..count]
}

// A buy's lots are wanted where the price is the low one, a sell's offered where it is the high one.
fn reached(low: u64, high: u64, lots: u64) -> u64
    ensures { result ≡ cond (low ≤? high) lots 0 }
{
    if low <= high { lots } else { 0 }
}

// Lots wanted and offered at a price, in one pass over the ladder.
fn level_at(rungs: &[Rung], price: u64) -> Level
    requires { FewRungs rungs.now }
    ensures { result ≡ level_of rungs.now price }
{
    let mut wanted: u64 = 0;
    let mut offered: u64 = 0;
    for rung in rungs {
        match rung.side {
            Side::Buy => wanted += reached(price, rung.price, rung.lots),
            Side::Sell => offered += reached(rung.price, price, rung.lots),
        }
    }
    Level {
        price,
        volume: wanted.min(offered),
        gap: wanted.abs_diff(offered),
    }
}

// Most lots, then the smaller gap, then the lower price.
fn precedes(a: Level, b: Level) -> bool
    ensures { result ≡ ahead a b }
{
    (b.volume, a.gap, a.price) < (a.volume, b.gap, b.price)
}

// The one that stays when a price is tried against the leading one.
fn first_of(a: Level, b: Level) -> Level
    ensures { result ≡ cond (ahead a b) a b }
{
    if precedes(a, b) { a } else { b }
}

// Each price is tried, and the one that goes before all others stays. Where nothing trades the price is 0, as `auction_price` says.
pub fn price(waiting: &[Order], security: u64) -> u64
    requires { FewLots waiting.now }
    ensures { result ≡ auction_price waiting.now security }
{
    let blank = Rung {
        price: 0,
        side: Side::Buy,
        lots: 0,
    };
    let mut ladder = [blank; MAX_WAITING as usize];
    let rungs = lay_out(waiting, security, &mut ladder);
    let mut lead = level_at(rungs, 0);
    for rung in rungs {
        lead = first_of(level_at(rungs, rung.price), lead);
    }
    if 0 < lead.volume { lead.price } else { 0 }
}
