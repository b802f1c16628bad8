/// A device failed. Its count of faults rose, or stands at the greatest u64.
#[derive(Clone, Copy, Debug, PartialEq, Eq)]
pub struct Failed;
