// What the phase decides: which calls it admits, which orders may wait, and whether a kept order only waits.
#![tactic(auto)]

ghost use Rattle.std.specs.Prelude.{◌≡◌};
ghost use Rattle.market.specs.Phases.{admits as admitsCall};
ghost use Rattle.market.specs.Sound.{kept_in};

use market::{Access, Phase};

// Question 6: does the phase allow the call? A case for each phase and call, as in market/specs/Phases (points 70.1 and 70.9):
// T-04 asks for the table written out, so no case is left to `_`.
pub fn admits(phase: Phase, access: Access) -> bool
    ensures { result ≡ admitsCall phase access }
{
    match phase {
        Phase::Open => match access {
            Access::Kept => true,
            Access::ImmediateOrCancel => true,
            Access::FillOrKill => true,
            Access::Member => true,
            Access::ClosingOrder => false,
            Access::StartCollecting => true,
            Access::EndCollecting => false,
            Access::StartClosing => true,
            Access::EndSession => false,
            Access::Offer => true,
            Access::NewDay => false,
        },
        Phase::Collecting => match access {
            Access::Kept => true,
            Access::ImmediateOrCancel => false,
            Access::FillOrKill => false,
            Access::Member => false,
            Access::ClosingOrder => false,
            Access::StartCollecting => false,
            Access::EndCollecting => true,
            Access::StartClosing => false,
            Access::EndSession => false,
            Access::Offer => false,
            Access::NewDay => false,
        },
        Phase::Closing => match access {
            Access::Kept => false,
            Access::ImmediateOrCancel => false,
            Access::FillOrKill => false,
            Access::Member => false,
            Access::ClosingOrder => true,
            Access::StartCollecting => false,
            Access::EndCollecting => false,
            Access::StartClosing => false,
            Access::EndSession => true,
            Access::Offer => false,
            Access::NewDay => false,
        },
        Phase::Closed => match access {
            Access::Kept => false,
            Access::ImmediateOrCancel => false,
            Access::FillOrKill => false,
            Access::Member => false,
            Access::ClosingOrder => false,
            Access::StartCollecting => false,
            Access::EndCollecting => false,
            Access::StartClosing => false,
            Access::EndSession => false,
            Access::Offer => false,
            Access::NewDay => true,
        },
    }
}

// May kept orders wait?
pub fn kept_in(phase: Phase) -> bool
    ensures { result ≡ kept_in phase }
{
    matches!(phase, Phase::Open | Phase::Collecting)
}
