// The laws of samples.

ghost use Rattle.std.specs.Prelude.{◌≡◌, ℕ, None};
ghost use Rattle.trex_headers.specs.Built.{built};
ghost use Rattle.trex_profile.specs.Admission.{refusal_of};
ghost use Rattle.trex_sample.specs.Sampled.{sampled};
ghost use Rattle.trex_sample.specs.Template.{layers, template};

/// A sample breaks no rule on profiles.
pub fn samples_keep_the_rules()
    ensures { (seed streams : ℕ) → refusal_of (sampled seed streams) ≡ None }
{}

/// The template of a sample is the packet of its layers.
pub fn templates_are_built()
    ensures { (pad : ℕ) → template pad ≡ built (layers pad) }
{}
