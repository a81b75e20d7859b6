/// Where the workers report a job. It lets a caller hold a job back, and see when it has finished.
pub trait WorkGate {
    /// Called between the start and the finish of the job of this number, with no lock held.
    fn pass(&self, number: u64);

    /// Called after the finish of the job of this number was answered `Ok`.
    fn done(&self, number: u64);
}

/// The gate that holds no job back.
#[derive(Clone, Copy, PartialEq, Eq, Debug)]
pub struct FreeGate;

impl WorkGate for FreeGate {
    fn pass(&self, _number: u64) {}

    fn done(&self, _number: u64) {}
}
