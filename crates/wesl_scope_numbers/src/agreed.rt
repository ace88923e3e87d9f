//! The number on which the binders of one name agree.
ghost use Rattle.std.specs.Prelude.{◌≡◌};
ghost use Rattle.wesl_scope_numbers.specs.Judging.{is_on, with_number, agreed_in, visible_with};

/// On which number the binders of a name agree.
#[derive(Clone, Copy)]
pub enum Agreed {
    /// on this one
    On(usize),
    /// on none
    Apart,
}

impl Agreed {
    /// With one more binder, if there are others.
    pub fn with(agreed: Option<Agreed>, number: usize) -> Agreed
        ensures { result ≡ with_number agreed number }
    {
        match agreed {
            None => Agreed::On(number),
            Some(Agreed::On(other)) => {
                if other == number {
                    Agreed::On(other)
                } else {
                    Agreed::Apart
                }
            }
            Some(Agreed::Apart) => Agreed::Apart,
        }
    }

    /// Whether all have this number.
    pub fn is_on(self, number: usize) -> bool
        ensures { result ≡ is_on self number }
    {
        match self {
            Agreed::On(other) => other == number,
            Agreed::Apart => false,
        }
    }
}

/// The binders of a name in a block of a function that are visible.
#[derive(Clone, Copy)]
pub struct Visible {
    /// the number of the block
    pub block: usize,
    /// on which number they agree
    pub agreed: Agreed,
}

/// On which number those agree that are visible, if they are of this block.
fn agreed_in(block: usize, visible: Option<Visible>) -> Option<Agreed>
    ensures { result ≡ agreed_in block visible }
{
    match visible {
        Some(visible) => {
            if visible.block == block {
                Some(visible.agreed)
            } else {
                None
            }
        }
        None => None,
    }
}

impl Visible {
    /// With one more binder, which this block declares, where some are visible.
    pub fn with(visible: Option<Visible>, block: usize, number: usize) -> Visible
        ensures { result ≡ visible_with visible block number }
    {
        let agreed = Agreed::with(agreed_in(block, visible), number);
        Visible { block, agreed }
    }
}
