ghost use Rattle.std.specs.Prelude.{◌≡◌, ◌+◌};
ghost use Rattle.base_moment.specs.declared.moment.TheConstants.{LAST};
ghost use Rattle.plan_forest.specs.declared.forest.TheConstants.{END_MAX, MARGIN_MAX, MAX_DEPTH, MAX_ENTRIES, NAME_MAX};

/// The limits of a forest as numbers. It does nothing.
pub fn limits_law()
    ensures end { END_MAX ≡ LAST + 4294967295 }
    ensures margin { MARGIN_MAX ≡ 3600 }
    ensures entries { MAX_ENTRIES ≡ 4096 }
    ensures depth { MAX_DEPTH ≡ 64 }
    ensures name { NAME_MAX ≡ 64 }
{}
