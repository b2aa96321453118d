//! The gate that lanes pass: by it a test can hold a lane at a point.

/// Where a lane stands when it passes a gate. It holds no lock there.
#[derive(Clone, Copy, Debug, PartialEq, Eq)]
pub enum Point {
    /// Before the entry of a row is drawn.
    BeforeRow,
    /// After the whole service of a row, when the lane is at rest again.
    AfterRow,
    /// After a look is drawn.
    AfterLook,
    /// Between taking tasks out of one queue and landing them in another.
    InHand,
    /// After tasks that were pulled have landed.
    AfterLand,
}

/// What lanes pass on their way. A gate may hold a lane for a while, so that a test can bring
/// about one order of the lanes; it changes nothing else.
pub trait Gate: Sync {
    /// Lets the lane go on from this point, at once or later.
    fn pass_here(&self, lane: u32, point: Point);
}

/// The program's gate: every lane passes at once.
#[derive(Clone, Copy, Debug)]
pub struct OpenGate;

impl Gate for OpenGate {
    fn pass_here(&self, _lane: u32, _point: Point) {}
}
