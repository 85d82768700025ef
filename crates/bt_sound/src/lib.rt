//! What it means that a style is sound, and a checker whose yes implies it (`is_sound`).
#![tactic(auto)]

ghost use Rattle.bt_style.specs.Program.{Program};
ghost use Rattle.bt_sound.specs.Rules.{Rules};
ghost use Rattle.bt_sound.specs.Checked.{IsCheckedStyle};
ghost use Rattle.bt_sound.specs.Sound.{Promises};
ghost use Rattle.std.specs.Prelude.{ℕ, List};

mod assigning;
mod commands;
mod following;
mod globals;
mod joining;
mod known;
mod may;
mod parts;
mod range;
mod reading;
mod search;
mod state;
mod stop;
mod tops;
mod transfer;
mod within;

pub use search::is_sound;

/// Each rule is right: a body that it checks gives no excluded message before an overflow.
pub fn rules_hold()
    ensures { (p : Program) (types : List ℕ) → Rules p types }
{}

/// No run of a style whose commands are checked gives an excluded message before an overflow.
pub fn checked_styles_keep_their_promise()
    ensures { (p : Program) (types : List ℕ) → IsCheckedStyle p types → Promises p types }
{}
