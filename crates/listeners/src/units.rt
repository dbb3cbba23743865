//! Sizes and times, as lines say them.

use std::fmt;

/// A unit of sizes.
#[derive(Clone, Copy)]
enum Unit {
    Bytes,
    Kilobytes,
    Megabytes,
}

/// The unit in which a size is said: in kilobytes from 1,000 bytes on, in megabytes from 1,000,000.
fn unit_of(bytes: u64) -> Unit {
    if bytes < 1_000 {
        return Unit::Bytes;
    }
    if bytes < 1_000_000 {
        return Unit::Kilobytes;
    }
    Unit::Megabytes
}

impl Unit {
    /// So many bytes in this unit, rounded.
    fn count(self, bytes: u64) -> u64 {
        match self {
            Unit::Bytes => bytes,
            Unit::Kilobytes => bytes.saturating_add(500) / 1_000,
            Unit::Megabytes => bytes.saturating_add(500_000) / 1_000_000,
        }
    }
}

impl fmt::Display for Unit {
    fn fmt<W: fmt::Write>(&self, f: &mut fmt::Formatter<W>) -> fmt::Result {
        match self {
            Unit::Bytes => f.write_str("bytes"),
            Unit::Kilobytes => f.write_str("kB"),
            Unit::Megabytes => f.write_str("MB"),
        }
    }
}

/// So many bytes, with their unit.
#[derive(Clone, Copy)]
pub(crate) struct Size(pub(crate) u64);

impl fmt::Display for Size {
    fn fmt<W: fmt::Write>(&self, f: &mut fmt::Formatter<W>) -> fmt::Result {
        let unit = unit_of(self.0);
        write!(f, "{} {unit}", unit.count(self.0))
    }
}

/// So many bytes of a size, both in the unit of that.
#[derive(Clone, Copy)]
pub(crate) struct Share {
    pub(crate) bytes: u64,
    pub(crate) size: u64,
}

impl fmt::Display for Share {
    fn fmt<W: fmt::Write>(&self, f: &mut fmt::Formatter<W>) -> fmt::Result {
        let unit = unit_of(self.size);
        let (bytes, size) = (unit.count(self.bytes), unit.count(self.size));
        write!(f, "{bytes} of {size} {unit}")
    }
}

/// So many bytes that became so many, both in the unit of the former.
#[derive(Clone, Copy)]
pub(crate) struct Now {
    pub(crate) before: u64,
    pub(crate) after: u64,
}

impl fmt::Display for Now {
    fn fmt<W: fmt::Write>(&self, f: &mut fmt::Formatter<W>) -> fmt::Result {
        let unit = unit_of(self.before);
        let (before, after) = (unit.count(self.before), unit.count(self.after));
        write!(f, "{before} {unit}, now {after}")
    }
}

/// So many milliseconds, in seconds with one digit behind the point, rounded.
#[derive(Clone, Copy)]
pub(crate) struct Millis(pub(crate) u64);

impl fmt::Display for Millis {
    fn fmt<W: fmt::Write>(&self, f: &mut fmt::Formatter<W>) -> fmt::Result {
        let tenths = self.0.saturating_add(50) / 100;
        write!(f, "{}.{} s", tenths / 10, tenths % 10)
    }
}
