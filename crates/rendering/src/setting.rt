// What an expression stands in.
ghost use Rattle.std.specs.Prelude.{◌≡◌};
ghost use Rattle.rendering.specs.Settings.{outermost, in_format, operand_setting};

use layout::{BindingPower, ExprFormatOption, Side};

// Upstream's `context` and `format`: how strongly the operators around an expression pull, and how its lines are laid out.
#[derive(Clone, Copy)]
pub(crate) struct Setting {
    pub(crate) context: BindingPower,
    pub(crate) format: ExprFormatOption,
}

impl Setting {
    // No operator around, on one line.
    pub(crate) const INLINE: Setting = Setting {
        context: BindingPower::INIT,
        format: ExprFormatOption::SingleLine,
    };

    // No operator around.
    #[inline(always)]
    pub(crate) fn outermost(format: ExprFormatOption) -> Setting
        ensures { result ≡ outermost format }
    {
        Setting {
            context: BindingPower::INIT,
            format,
        }
    }

    // The same in another format.
    #[inline(always)]
    pub(crate) fn in_format(self, format: ExprFormatOption) -> Setting
        ensures { result ≡ in_format format self }
    {
        Setting { format, ..self }
    }

    // That of the operand at a side of an operator of this strength.
    #[inline(always)]
    pub(crate) fn operand(self, strength: BindingPower, side: Side) -> Setting
        ensures { result ≡ operand_setting strength side self }
    {
        Setting {
            context: strength.subexpression_power(side, self.context),
            ..self
        }
    }
}
