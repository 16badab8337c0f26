// Lots in sixteen bits (T-08): each count reads back as it was stored, and lots that sixteen bits would cut to good ones are
// refused, also such as are too long for a line.
ghost use Rattle.std.specs.Prelude.{◌≡◌, ◌≤◌};
ghost use Rattle.market.specs.Limits.{max_lots};

use case_states::{
    after, aged, arrived, asked, buy, funded, order, position, sell_order, waiting, with_pieces,
};
use engine::{cancel, enter_closing_order, enter_group, enter_offer};
use market::{Kind, MAX_LOTS, Order, Phase, Side, lots_of, with_lots};

// 2^64 - 65535, which sixteen bits would cut to 1.
const CUT_TO_ONE: u64 = 18446744073709486081;

fn read_back(o: Order, lots: u64) -> u64
    requires { lots ≤ max_lots }
    ensures { result ≡ lots }
{
    lots_of(with_lots(o, lots))
}

fn all_lots(rt: &impl Print) {
    let o = sell_order(3, 1, 0, 10, Kind::Kept(95));
    let same = (0..=MAX_LOTS)
        .filter(|lots| read_back(o, *lots) == *lots)
        .count();
    position(
        rt,
        b"lots from 0 on that read back",
        same as u64,
        MAX_LOTS + 1,
    );
}

fn waiting_lots(rt: &impl Print) {
    let o = arrived(sell_order(3, 1, 0, 10000, Kind::Kept(95)), 3);
    let s = with_pieces(waiting(o), 16, 0, 100000);
    asked(rt, b"10000 lots wait, sound", s);
    let s = after(rt, b"they are cancelled", cancel(s, 1, 3));
    position(rt, b"their pieces", s.floor.pieces[32], s.floor.pieces[33]);
    let o = arrived(sell_order(3, 1, 0, 65535, Kind::Kept(95)), 3);
    asked(rt, b"65535 lots: 1", with_pieces(waiting(o), 16, 0, 655350));
}

fn cut_lots(rt: &impl Print) {
    let mut trades = [0u64; 1088];
    let s = funded();
    let t = buy(0, 5, CUT_TO_ONE);
    after(rt, b"an order's lots: 7", order(s, 0, t));
    let o = enter_offer(s, 0, Side::Buy, 0, 5, CUT_TO_ONE, 0, 1, &mut trades);
    after(rt, b"an offer's: 7", o);
    let o = enter_group(s, 0, 2, [t; 8], &mut trades);
    after(rt, b"a member's: 7, place 1", o);
    let s = aged(4, Side::Buy, Kind::Closing, Phase::Closing);
    let o = enter_closing_order(s, 0, Side::Buy, 0, CUT_TO_ONE);
    after(rt, b"a closing order's: 7", o);
}

pub fn stored_lots(rt: &impl Print) {
    all_lots(rt);
    waiting_lots(rt);
    cut_lots(rt);
}
