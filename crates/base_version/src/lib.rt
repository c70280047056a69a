//! The version of the programs, and whether their build was proved.
//!
//! What is proved says that it is. `tools/try-quickly` changes that here before it builds anything without a proof.
#![tactic(auto)]

ghost use Rattle.std.specs.Prelude.{◌≡◌};
ghost use Rattle.base_version.specs.Version.{build_labels};

/// What `--version` says.
pub const VERSION: &str = "0.2.0 (proved)";

/// The labels of the metric that tells of the build.
#[tactic(auto, unfolding(crate::specs::Version::build_labels))]
pub fn build_labels() -> &'static str
    ensures { result.now ≡ build_labels }
{
    "{version=\"0.2.0\",proved=\"true\"}"
}
