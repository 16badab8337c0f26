// Codes given, of each participant, and the numbers of the next order. Counts past the participants are never read.
#![tactic(auto)]

ghost use Rattle.std.specs.Prelude.{◌≡◌, ◌+◌, ◌<◌, ◌≤◌, get_or};
ghost use Rattle.market.specs.Limits.{max_own_codes, max_participants};
ghost use Rattle.market.proofs.Codes.{CodesWithin};
ghost use Rattle.codes.specs.Numbers.{Numberable, given_in, numbered_with};

use market::Order;

// All codes given.
pub fn given(participants: u64, codes: &[u64; 16]) -> u64
    requires { (participants ≤ max_participants) × CodesWithin participants codes.now }
    ensures { result ≡ given_in participants codes.now }
{
    codes[..participants as usize].iter().sum()
}

// The next code of a participant.
pub fn next_code(codes: &[u64; 16], participant: u64) -> u64
    requires { (participant < max_participants) × (get_or codes.now participant 0 ≤ max_own_codes) }
    ensures { result ≡ get_or codes.now participant 0 + 1 }
{
    codes[participant as usize] + 1
}

// The order under the next code of its participant, and under the next arrival number, one more than all codes given.
pub fn numbered(participants: u64, codes: &[u64; 16], o: Order) -> Order
    requires { Numberable participants codes.now o.participant }
    ensures { result ≡ numbered_with participants codes.now o }
{
    Order {
        code: next_code(codes, o.participant),
        arrival: (given(participants, codes) + 1) as u32,
        ..o
    }
}
