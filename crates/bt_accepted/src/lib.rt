//! What runs of a sound style over files do.
#![tactic(auto)]

ghost use Rattle.bt_accepted.specs.Accepted.{SoundOverFiles};

/// Over files whose databases give entries of its types only, no step of a sound style's run gives an excluded message
/// before an overflow.
pub fn accepted_styles_run_clean()
    ensures { SoundOverFiles }
{}
