use ch_cells::{Bytes, Listed};

/// What becomes of the packet at a place of a link.
#[derive(Clone, Copy, Debug, PartialEq, Eq)]
pub enum How {
    /// It leaves the link and is delivered.
    Take,
    /// It is delivered and stays on the link, as if it had been sent twice.
    Keep,
    /// It leaves the link and isn't delivered.
    Lose,
}

#[derive(Clone, Copy, Debug, PartialEq, Eq)]
pub enum Link {
    /// From the workers to the switch.
    Up,
    /// From the switch to the master.
    Down,
    /// Acknowledgements, back to the workers.
    Back,
}

/// What happens next. Places of a link count from its oldest packet.
#[derive(Debug)]
pub enum Step {
    /// The worker sends its next number.
    Send { worker: u32 },
    /// The worker sends again, of its sent and unacknowledged numbers the one at this place.
    Resend { worker: u32, place: u32 },
    Up { at: u32, how: How },
    Down { at: u32, how: How },
    Back { at: u32, how: How },
    /// These bytes come from a link. They are no packet's.
    Inject { link: Link, bytes: Bytes },
    /// The switch begins a new epoch with all its registers 0.
    Restart,
}

impl Drop for Step {
    fn drop(self) {
        match self {
            Step::Send { worker: _ } => {}
            Step::Resend {
                worker: _,
                place: _,
            } => {}
            Step::Up { at: _, how: _ } => {}
            Step::Down { at: _, how: _ } => {}
            Step::Back { at: _, how: _ } => {}
            Step::Inject { link: _, bytes: _ } => {}
            Step::Restart => {}
        }
    }
}

/// What drives a run.
#[derive(Drop)]
pub struct Schedule {
    pub steps: Listed<Step>,
    /// Whether the run then goes on until all is confirmed.
    pub drain: bool,
}
