// The types of a trading day, in document 01's words, and its limits.
#![tactic(auto)]

ghost use Rattle.std.specs.Prelude.{◌≡◌, ◌<◌, ◌≤◌, length};
ghost use Rattle.market.specs.declared.Answer.TheVariants.{Refused};
ghost use Rattle.market.specs.Day.{with_lots};
ghost use Rattle.market.specs.Limits.{limits_in_order, max_lots, max_participants, max_securities, position_numbers};
ghost use Rattle.market.specs.Refusals.{number_of};
ghost use Rattle.market.specs.Parts.{listing};
ghost use Rattle.market.specs.View.{Sized, view};

pub const MAX_PARTICIPANTS: u64 = 16;

pub const MAX_CURRENCIES: u64 = 4;

pub const MAX_SECURITIES: u64 = 16;

pub const MAX_LOT: u64 = 1000;

pub const MAX_STEP: u64 = 1000000;

pub const MONEY_LIMIT: u64 = 1000000000000000;

pub const PIECES_LIMIT: u64 = 1000000000000;

pub const MAX_LOTS: u64 = 10000;

pub const MAX_PRICE: u64 = 1000000;

pub const MIN_NOMINAL: u64 = 10000;

pub const MAX_NOMINAL: u64 = 500000;

// The highest price in hundredths of a percent, and how many of them are the whole nominal.
pub const MAX_PERCENT_PRICE: u64 = 20000;

pub const HUNDRED_PERCENT: u64 = 10000;

pub const MAX_WAITING: u64 = 128;

// Codes of one participant, and of all of them together.
pub const MAX_OWN_CODES: u64 = 62500;

pub const MAX_CODES: u64 = 1000000;

pub const MAX_PIECES: u64 = 10000000;

pub const LENT_AT_LEAST: usize = 1088;

pub const MIN_MEMBERS: u64 = 2;

pub const MAX_MEMBERS: u64 = 8;

pub const MAX_RATE: u64 = 1000;

// A rate is in hundred-thousandths of a sum.
pub const RATE_UNIT: u64 = 100000;

// A repurchase offer's rate, in hundredths of a percent a year, and its term, in days, are at most so much.
pub const MAX_OFFER_RATE: u64 = 5000;

pub const MAX_TERM: u64 = 365;

// The last day of the table of years, counted from 1970, and the largest first sum of an offer.
pub const LAST_DAY: u64 = 146096;

pub const MAX_FIRST_SUM: u64 = 10000000000;

pub const MAX_DEALS: u64 = 64;

// The row of the market's own account, behind those of 16 participants.
pub const MARKET: u64 = 16;

// The limits in the order of specs/Limits, each equal to the definition's.
pub fn limits() -> [u64; 28]
    ensures { result ≡ limits_in_order }
{
    [
        MAX_PARTICIPANTS,
        MAX_CURRENCIES,
        MAX_SECURITIES,
        MAX_LOT,
        MAX_STEP,
        MONEY_LIMIT,
        PIECES_LIMIT,
        MAX_LOTS,
        MAX_PRICE,
        MIN_NOMINAL,
        MAX_NOMINAL,
        MAX_PERCENT_PRICE,
        HUNDRED_PERCENT,
        MAX_WAITING,
        MAX_OWN_CODES,
        MAX_CODES,
        MAX_PIECES,
        LENT_AT_LEAST as u64,
        MIN_MEMBERS,
        MAX_MEMBERS,
        MAX_RATE,
        RATE_UNIT,
        MAX_OFFER_RATE,
        MAX_TERM,
        LAST_DAY,
        MAX_FIRST_SUM,
        MAX_DEALS,
        MARKET,
    ]
}

// Why a call is refused: the number is that of the question answered "no".
#[derive(Clone, Copy, PartialEq, Eq)]
pub enum Refusal {
    Unsound = 1,
    ListTooShort = 2,
    GroupSize = 3,
    UnknownParticipant = 4,
    UnknownAsset = 5,
    WrongPhase = 6,
    AmountOutOfRange = 7,
    WrongPrice = 8,
    OverTotalLimit = 9,
    OverFree = 10,
    NothingTraded = 11,
    NoRoom = 12,
    NoCodeLeft = 13,
    NotCovered = 14,
    NotFillable = 15,
    NotFound = 16,
    CountsOutOfRange = 17,
    WrongLine = 18,
    Malformed = 19,
    TextTooLong = 20,
    CodesGiven = 21,
    RateOutOfRange = 22,
    NominalOutOfRange = 23,
    DayOutOfRange = 24,
    LoanOutOfRange = 25,
    NoRoomForDeals = 26,
}

impl Refusal {
    pub fn number(self) -> u64
        ensures { result ≡ number_of self }
    {
        self as u64
    }
}

// With place 0.
impl From<Refusal> for Answer {
    ghost from_gives = { λ r a. a ≡ Refused (number_of r) 0 };

    fn from(refusal: Refusal) -> Answer {
        Answer::Refused(refusal.number(), 0)
    }
}

// What a position is held in.
#[derive(Clone, Copy)]
pub enum Asset {
    Money,
    Pieces,
}

#[derive(Clone, Copy, PartialEq, Eq)]
pub enum Side {
    Buy,
    Sell,
}

// Kept orders are collected for the auction (T-02) before trading opens.
#[derive(Clone, Copy, PartialEq, Eq)]
pub enum Phase {
    Open,
    Collecting,
    Closing,
    Closed,
}

// Kind of a waiting order; a kept one has a price. A repurchase offer (T-06) has rate, term and price, and waits among the orders:
// rate and term lie where a kept one has padding, so that no order grows.
#[derive(Clone, Copy, PartialEq, Eq)]
pub enum Kind {
    Kept(u64),
    Closing,
    Offer(u16, u16, u64),
}

// How an order enters: kept (K), immediate (I), whole or nothing (A).
#[derive(Clone, Copy)]
pub enum TimeInForce {
    Kept,
    ImmediateOrCancel,
    FillOrKill,
}

// The calls that question 6 is asked of, each kind of order a call of its own, and so a member of a group.
#[derive(Clone, Copy)]
pub enum Access {
    Kept,
    ImmediateOrCancel,
    FillOrKill,
    Member,
    ClosingOrder,
    StartCollecting,
    EndCollecting,
    StartClosing,
    EndSession,
    Offer,
    NewDay,
}

// With a nominal its prices are hundredths of a percent of that; with 0, none, they are minor units.
#[derive(Clone, Copy)]
pub struct Security {
    pub currency: u64,
    pub lot: u64,
    pub step: u64,
    pub nominal: u64,
}

// Q and T of a security, traded while open: its pieces, and price × pieces.
#[derive(Clone, Copy)]
pub struct Turnover {
    pub pieces: u64,
    pub value: u64,
}

// A waiting order: its participant's own code, and the arrival number, which is never shown. Lots (T-08) and arrival lie in
// what a side leaves free; only `lots_of` and `with_lots` know how wide lots are.
#[derive(Clone, Copy)]
pub struct Order {
    pub code: u64,
    pub participant: u64,
    pub side: Side,
    pub lots: u16,
    pub arrival: u32,
    pub security: u64,
    pub kind: Kind,
}

// What an order says; a linked group's members are such.
#[derive(Clone, Copy)]
pub struct Ticket {
    pub side: Side,
    pub security: u64,
    pub price: u64,
    pub lots: u64,
}

// The opening's arguments, which nothing changes: counts, security table, and the rate of the tariff in hundred-thousandths.
// A table of 16 rows and a count, no Vec: there is no heap, and question 1 is asked of any count.
#[derive(Clone, Copy)]
pub struct Rules {
    pub participants: u64,
    pub currencies: u64,
    pub securities: u64,
    pub table: [Security; 16],
    pub rate: u64,
}

// A security as it is traded here: its row of the table, and the rate. Needs and fees are reckoned from it.
#[derive(Clone, Copy)]
pub struct Listing {
    pub row: Security,
    pub rate: u64,
}

impl Rules {
    // The listing of a security, whose row is all that is copied.
    pub fn listing(&self, security: u64) -> Listing
        requires { security < max_securities }
        ensures { result ≡ listing self.now security }
    {
        Listing {
            row: self.table[security as usize],
            rate: self.rate,
        }
    }
}

// A move of reserves: participant, currency or security, amount.
#[derive(Clone, Copy)]
pub enum Move {
    IncreaseMoney(u64, u64, u64),
    DecreaseMoney(u64, u64, u64),
    IncreasePieces(u64, u64, u64),
    DecreasePieces(u64, u64, u64),
}

// What has a start and an end of its own: the closing session, and collecting, which ends with the auction.
#[derive(Clone, Copy)]
pub enum Session {
    Closing,
    Collecting,
}

// A call with its arguments; the members of a group stand beside it.
#[derive(Clone, Copy)]
pub enum Call {
    Reserve(Move),
    // Participant and order.
    Order(u64, Ticket, TimeInForce),
    // Participant and code.
    Cancel(u64, u64),
    // Participant and number of members.
    Group(u64, u64),
    Start(Session),
    // Participant, side, security, lots.
    ClosingOrder(u64, Side, u64, u64),
    End(Session),
}

// An open repurchase deal (T-06): what both offers said, who first bought and sold, and its first day. What it costs follows.
#[derive(Clone, Copy)]
pub struct Deal {
    pub price: u32,
    pub first: u32,
    pub lots: u16,
    pub rate: u16,
    pub term: u16,
    pub buyer: u8,
    pub seller: u8,
    pub security: u8,
}

// What lasts from day to day beside positions and rules: the date, in days from 1970, and the open deals (the first `count`),
// oldest first. An array and a count, no Vec: there is no heap, and question 1 is asked of any count.
#[derive(Clone, Copy)]
pub struct Records {
    pub date: u64,
    pub count: usize,
    pub deals: [Deal; 64],
}

// What the calls of a trading day change. The first `count` orders wait. `codes` are those given, of each participant. A position's
// cell is participant * 16 + currency or security, free at twice that cell and blocked behind it; the row behind the participants'
// 16 is the market's own account. An array and a count, no Vec: there is no heap, and question 1 is asked of any count.
// Positions are numbers, no structs: a Day has lists of numbers. So is the lent trade list: document 01 says 8 numbers a trade.
#[derive(Clone, Copy)]
pub struct Floor {
    pub phase: Phase,
    pub orders: [Order; 128],
    pub count: usize,
    pub codes: [u64; 16],
    pub turnover: [Turnover; 16],
    pub money: [u64; 544],
    pub pieces: [u64; 544],
}

#[derive(Clone, Copy)]
pub struct State {
    pub rules: Rules,
    pub floor: Floor,
    pub records: Records,
}

// That arrays have their lengths, for proofs: their types tell, but of structs behind a reference they tell it only here.
fn sized_table(rules: &Rules)
    ensures { length rules.now.table ≡ max_securities }
{}

fn sized_floor(floor: &Floor)
    ensures codes { length floor.now.codes ≡ max_participants }
    ensures turnover { length floor.now.turnover ≡ max_securities }
{}

fn sized_positions(positions: &[u64; 544])
    ensures { length positions.now ≡ position_numbers }
{}

impl State {
    pub fn sized(&self)
        ensures { Sized (view self.now) }
    {
        sized_table(&self.rules);
        sized_floor(&self.floor);
        sized_positions(&self.floor.money);
        sized_positions(&self.floor.pieces);
    }
}

// Refused(number, place) or Done(code, filled, left, trades). No Result: document 01 names this enum with its data.
#[derive(Clone, Copy)]
pub enum Answer {
    Refused(u64, u64),
    Done(u64, u64, u64, u64),
}

// An act on the records, with its arguments (T-06); each call of a trading day is an act too.
#[derive(Clone, Copy)]
pub enum Dealing {
    // Participant, offer, rate and term.
    Offer(u64, Ticket, u64, u64),
    // The deal's place, from 1.
    SecondPart(u64),
    // The date.
    NewDay(u64),
}

#[derive(Clone, Copy)]
pub struct Outcome {
    pub answer: Answer,
    pub state: State,
}

// An order's lots, as wide as the sums that start from them.
pub fn lots_of(o: Order) -> u64
    ensures { result ≡ o.lots }
{
    o.lots as u64
}

// The order with other lots, which question 7 or what they are taken from has bounded.
pub fn with_lots(o: Order, lots: u64) -> Order
    requires { lots ≤ max_lots }
    ensures { result ≡ with_lots o lots }
{
    let mut next = o;
    next.lots = lots as u16;
    next
}

// An order before it is numbered.
pub fn unnumbered(participant: u64, side: Side, security: u64, lots: u64, kind: Kind) -> Order
    requires { lots ≤ max_lots }
    ensures { result ≡ record { code = 0; participant = participant; side = side; lots = lots; arrival = 0; security = security; kind = kind } }
{
    let empty = Order {
        code: 0,
        participant,
        side,
        lots: 0,
        arrival: 0,
        security,
        kind,
    };
    with_lots(empty, lots)
}
