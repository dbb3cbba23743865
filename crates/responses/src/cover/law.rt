//! The law of a Cover response.

ghost use Rattle.std.specs.Prelude.{◌≡◌, ℤ, List, ◌++◌, length};
ghost use Rattle.std.specs.List.{flat_map};
ghost use Rattle.frame_fields.specs.Fields.{encoded};
ghost use Rattle.responses.specs.Cover.{cover_response, cover_value, cover_head_bytes, cover_run_bytes};

/// The parts of a Cover response.
#[tactic(auto, using(crate::proofs::CoverParts::cover_parts))]
pub fn cover_parts()
    ensures { (code : ℤ) (runs : List (ℤ × ℤ)) → encoded cover_response (cover_value code runs)
        ≡ cover_head_bytes code (length runs) ++ flat_map cover_run_bytes runs }
{}
