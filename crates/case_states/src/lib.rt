// What state_cases and deal_cases share: states made by hand, orders entered into them, and the printing of a case's line.
#![tactic(auto)]

use engine::{increase_money, increase_pieces, opening};
use host::enter_order;
use market::{
    Answer, Deal, Kind, Order, Outcome, Phase, Records, Security, Side, State, Ticket, TimeInForce,
    Turnover,
};

// `rt` and `label` are two parameters in this file, not a struct: one would be made for each line printed.
fn text(rt: &impl Print, bytes: &[u8]) {
    let _ = rt.write_all(bytes);
}

// A label and numbers, with a comma ahead of each.
fn line(rt: &impl Print, label: &[u8], numbers: &[u64]) {
    text(rt, label);
    for number in numbers {
        text(rt, b",");
        let _ = rt.print(*number);
    }
    text(rt, b"\n");
}

// An answer as the day file prints it: refusal, place, code, filled, left, trades.
fn answer(rt: &impl Print, label: &[u8], a: Answer) {
    let numbers = match a {
        Answer::Refused(number, place) => [number, place, 0, 0, 0, 0],
        Answer::Done(code, filled, left, trades) => [0, 0, code, filled, left, trades],
    };
    line(rt, label, &numbers);
}

// Prints the answer and goes on with the state.
pub fn after(rt: &impl Print, label: &[u8], o: Outcome) -> State {
    answer(rt, label, o.answer);
    o.state
}

pub fn position(rt: &impl Print, label: &[u8], free: u64, blocked: u64) {
    line(rt, label, &[free, blocked]);
}

// Free and blocked money at participant * 16 + currency.
pub fn money(rt: &impl Print, label: &[u8], s: State, place: usize) {
    if place < 272 {
        position(
            rt,
            label,
            s.floor.money[2 * place],
            s.floor.money[2 * place + 1],
        );
    }
}

// Codes given, at each of the 16 places.
pub fn counts(rt: &impl Print, label: &[u8], s: State) {
    line(rt, label, &s.floor.codes);
}

// Code and arrival of the order that waits longest; no call shows an arrival.
pub fn code_and_arrival(rt: &impl Print, label: &[u8], s: State) {
    let o = s.floor.orders[0];
    position(rt, label, o.code, u64::from(o.arrival));
}

// Eight numbers of the trade list from `first` on, as many as one trade takes.
pub fn numbers(rt: &impl Print, label: &[u8], trades: &[u64], first: usize) {
    if let Some(trade) = trades.get(first..).and_then(|rest| rest.get(..8)) {
        line(rt, label, trade);
    }
}

// The day that all cases start from: two participants, currencies and securities; lot 10, step 5.
pub fn table() -> [Security; 16] {
    [Security {
        currency: 0,
        lot: 10,
        step: 5,
        nominal: 0,
    }; 16]
}

pub fn day() -> State {
    opening(2, 2, 2, table(), 0, 0).state
}

// The state with this money at participant * 16 + currency.
pub fn with_money(mut s: State, place: usize, free: u64, blocked: u64) -> State {
    if place < 272 {
        s.floor.money[2 * place] = free;
        s.floor.money[2 * place + 1] = blocked;
    }
    s
}

// The state with these pieces at participant * 16 + security.
pub fn with_pieces(mut s: State, place: usize, free: u64, blocked: u64) -> State {
    if place < 272 {
        s.floor.pieces[2 * place] = free;
        s.floor.pieces[2 * place + 1] = blocked;
    }
    s
}

// The state with so many codes given to this participant.
pub fn with_codes(mut s: State, participant: usize, count: u64) -> State {
    if participant < 16 {
        s.floor.codes[participant] = count;
    }
    s
}

// The state with this count at every place past two participants.
pub fn with_counts_past(mut s: State, count: u64) -> State {
    s.floor.codes[2..].fill(count);
    s
}

pub fn with_phase(mut s: State, phase: Phase) -> State {
    s.floor.phase = phase;
    s
}

// The state on this date, so many deals open, all of them this one.
pub fn with_deals(mut s: State, date: u64, x: Deal, count: usize) -> State {
    s.records = Records {
        date,
        count,
        deals: [x; 64],
    };
    s
}

fn anything() -> Deal {
    Deal {
        price: u32::MAX,
        first: 7,
        lots: u16::MAX,
        rate: u16::MAX,
        term: u16::MAX,
        buyer: u8::MAX,
        seller: u8::MAX,
        security: u8::MAX,
    }
}

// A day with anything past its counts.
pub fn with_unread() -> State {
    let s = with_money(day(), 2, u64::MAX, 7);
    let s = with_money(s, 32, u64::MAX, 7);
    let mut s = with_pieces(s, 2, u64::MAX, 7);
    s.rules.table[2] = Security {
        currency: 99,
        lot: 0,
        step: 0,
        nominal: u64::MAX,
    };
    s.floor.turnover[2] = Turnover {
        pieces: u64::MAX,
        value: 0,
    };
    s.floor.orders[0] = sell_order(u64::MAX, 99, 99, 0, Kind::Closing);
    let s = with_counts_past(s, u64::MAX);
    with_deals(s, 0, anything(), 0)
}

// Question 1, of a state made by hand.
pub fn asked(rt: &impl Print, label: &[u8], s: State) {
    after(rt, label, increase_money(s, 0, 0, 1));
}

// A security of currency 0, lot 10 and step 5 with this nominal.
pub fn bond(nominal: u64) -> Security {
    Security {
        currency: 0,
        lot: 10,
        step: 5,
        nominal,
    }
}

// Its arrival is its code, cut to 32 bits.
pub fn sell_order(code: u64, participant: u64, security: u64, lots: u16, kind: Kind) -> Order {
    Order {
        code,
        participant,
        side: Side::Sell,
        lots,
        arrival: (code % 4294967296) as u32,
        security,
        kind,
    }
}

pub fn arrived(o: Order, arrival: u32) -> Order {
    Order { arrival, ..o }
}

// 4 codes given to participant 1, 100 pieces of his in security 0 blocked, this order waiting.
pub fn waiting(o: Order) -> State {
    let mut s = with_codes(with_pieces(day(), 16, 0, 100), 1, 4);
    s.floor.orders[0] = o;
    s.floor.count = 1;
    s
}

pub fn asked_kind(rt: &impl Print, label: &[u8], kind: Kind) {
    asked(rt, label, waiting(sell_order(3, 1, 0, 10, kind)));
}

// The same order in a phase, with this Q and T of its security.
pub fn in_phase(phase: Phase, kind: Kind, pieces: u64, value: u64) -> State {
    let mut s = with_phase(waiting(sell_order(3, 1, 0, 10, kind)), phase);
    s.floor.turnover[0] = Turnover { pieces, value };
    s
}

pub fn asked_closing(rt: &impl Print, label: &[u8], kind: Kind, pieces: u64, value: u64) {
    asked(rt, label, in_phase(Phase::Closing, kind, pieces, value));
}

pub fn asked_collecting(rt: &impl Print, label: &[u8], kind: Kind, pieces: u64, value: u64) {
    asked(rt, label, in_phase(Phase::Collecting, kind, pieces, value));
}

// 5 lots of each participant wait at 95 on this side. Participant 0 has money and pieces free, too.
fn blocked_for_both(side: Side) -> State {
    let s = with_pieces(with_money(day(), 0, 100000, 0), 0, 100, 0);
    match side {
        Side::Buy => with_money(with_money(s, 0, 100000, 4750), 16, 0, 4750),
        Side::Sell => with_pieces(with_pieces(s, 0, 100, 50), 16, 0, 50),
    }
}

fn five_lots(code: u64, participant: u64, side: Side, arrival: u32, kind: Kind) -> Order {
    Order {
        code,
        participant,
        side,
        lots: 5,
        arrival,
        security: 0,
        kind,
    }
}

// Two orders of one side and price, 95: participant 1's older one with this code, then participant 0's code 2. Of 9 codes
// participant 0 has 5. Closing orders have that price by Q and T.
pub fn aged(code: u64, side: Side, kind: Kind, phase: Phase) -> State {
    let s = with_codes(blocked_for_both(side), 0, 5);
    let mut s = with_codes(s, 1, 4);
    s.floor.turnover[0] = Turnover {
        pieces: 10,
        value: 950,
    };
    s.floor.orders[0] = five_lots(code, 1, side, 8, kind);
    s.floor.orders[1] = five_lots(2, 0, side, 9, kind);
    s.floor.count = 2;
    with_phase(s, phase)
}

// Participant 0 has 100000 in money, participant 1 has 200 pieces of security 0.
pub fn funded() -> State {
    let o = increase_money(day(), 0, 0, 100000);
    increase_pieces(o.state, 1, 0, 200).state
}

pub fn buy(security: u64, price: u64, lots: u64) -> Ticket {
    Ticket {
        side: Side::Buy,
        security,
        price,
        lots,
    }
}

pub fn sell(security: u64, price: u64, lots: u64) -> Ticket {
    Ticket {
        side: Side::Sell,
        security,
        price,
        lots,
    }
}

// An order whose trades are not looked at.
pub fn entered(s: State, participant: u64, t: Ticket, force: TimeInForce) -> Outcome {
    let mut trades = [0u64; 1088];
    enter_order(
        s,
        participant,
        t.side,
        t.security,
        t.price,
        t.lots,
        force,
        &mut trades,
    )
}

pub fn order(s: State, participant: u64, t: Ticket) -> Outcome {
    entered(s, participant, t, TimeInForce::Kept)
}

pub fn kept(s: State, participant: u64, t: Ticket) -> State {
    order(s, participant, t).state
}

pub fn bought(rt: &impl Print, label: &[u8], s: State) {
    after(rt, label, order(s, 0, buy(0, 5, 1)));
}

// An order lent a list of sevens: its first trade and the 8 numbers behind it.
pub fn traded(
    rt: &impl Print,
    label: &[u8],
    s: State,
    participant: u64,
    t: Ticket,
    force: TimeInForce,
) -> State {
    let mut trades = [7u64; 1088];
    let o = enter_order(
        s,
        participant,
        t.side,
        t.security,
        t.price,
        t.lots,
        force,
        &mut trades,
    );
    let s = after(rt, label, o);
    numbers(rt, label, &trades, 0);
    numbers(rt, b"the next 8 numbers", &trades, 8);
    s
}
