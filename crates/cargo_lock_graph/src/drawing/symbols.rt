//! The symbols of a drawing.

ghost use Rattle.std.specs.Prelude.{◌≡◌};
ghost use Rattle.cargo_lock_graph.specs.DrawingText.{standard_symbols};

/// The symbols from which a drawing's lines are made: `│`, `├`, `└` and `─`. `Default` makes them.
#[derive(Debug, Drop)]
pub struct Symbols {
    pub(crate) down: &'static str,
    pub(crate) tee: &'static str,
    pub(crate) ell: &'static str,
    pub(crate) right: &'static str,
    ghost down_is: { down.now ≡ standard_symbols.down },
    ghost tee_is: { tee.now ≡ standard_symbols.tee },
    ghost ell_is: { ell.now ≡ standard_symbols.ell },
    ghost right_is: { right.now ≡ standard_symbols.right },
}

impl Default for Symbols {
    fn default() -> Symbols {
        Symbols {
            down: "│",
            tee: "├",
            ell: "└",
            right: "─",
        }
    }
}
