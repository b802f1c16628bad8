//! Dispositions, compared.
ghost use Rattle.std.specs.Prelude.{◌≡◌, ◌==◌};
ghost use Rattle.cd_types.specs.Choices.{disp_code};

use cd_types::Disp;

/// Whether two dispositions are the same.
pub(crate) fn same_disp(a: Disp, b: Disp) -> bool
    ensures { result ≡ (disp_code a == disp_code b) }
{
    match (a, b) {
        (Disp::New, Disp::New) => true,
        (Disp::Rpl, Disp::Rpl) => true,
        (Disp::Mod, Disp::Mod) => true,
        _ => false,
    }
}
