//! How far apart copies stand: near now at small gaps, far away at large ones. No promise rests on it.

ghost use Rattle.std.specs.Prelude.{◌≤◌, ◌<◌};

/// The least gap, which only going back lays copies at.
const FINE: u64 = 1 << 6;

/// The least gap between the copies that a run forward lays.
const DENSE: u64 = 1 << 14;

/// The largest gap, where there is room for so many copies.
const SPARSE: u64 = 1 << 21;

/// How many gaps of a size stand side by side before the next size.
const WIDTH: u64 = 16;

/// How many copies there may be, whatever they take.
const MOST: usize = 2048;

/// How many copies more there may be before it is looked again which may go.
const MORE: usize = 64;

/// A copy of so many bytes takes as long as so many moves, at these bytes a move.
const BYTES_A_MOVE: u64 = 64;

/// The least power of two that is no less than a number, up to 2^62.
fn power_from(number: u64) -> u64
    ensures { 0 < result }
{
    number.clamp(1, 1 << 62).next_power_of_two()
}

/// The gaps between copies, each a power of two.
#[derive(Clone, Copy)]
pub(crate) struct Spacing {
    fine: u64,
    dense: u64,
    sparse: u64,
    width: u64,
    /// No gap is less, whatever a copy takes.
    least: u64,
    /// About how many bytes all copies may take.
    budget: usize,
    /// How many they took when they were last counted.
    bytes: usize,
    /// With how many copies it is looked which of them may go.
    crowd: usize,
}

impl Spacing {
    /// The gaps where copies may take so many bytes, and none has been made yet.
    pub(crate) fn new(budget: usize) -> Spacing {
        Spacing {
            fine: FINE,
            dense: DENSE,
            sparse: SPARSE,
            width: WIDTH,
            least: FINE,
            budget,
            bytes: 0,
            crowd: MORE,
        }
    }

    /// How far apart copies stand at a distance from now.
    fn gap_at(&self, distance: u64) -> u64
        ensures { 0 < result }
    {
        power_from(distance / self.width.max(1))
            .min(self.sparse)
            .max(self.fine)
            .max(1)
    }

    /// Whether a copy stays where it is, as seen from now.
    #[inline(always)]
    pub(crate) fn stays(&self, position: u64, now: u64) -> bool {
        position % self.gap_at(now.abs_diff(position)) == 0
    }

    /// The next position on the way to a later one at which a copy is laid, or that one.
    pub(crate) fn next_mark(&self, at: u64, target: u64) -> u64
        requires { at < target }
        ensures later { at < result }
        ensures within { result ≤ target }
    {
        let left = target - at;
        let gap = self.gap_at(left);
        let room = gap - at % gap;
        if room < left { at + room } else { target }
    }

    /// How many moves forward are made before a copy may be kept again, of so many that are left.
    #[inline(always)]
    pub(crate) fn part_length(&self, position: u64, left: u64) -> u64
        ensures few { result ≤ left }
        ensures some { 0 < left → 0 < result }
    {
        let gap = self.dense.max(1);
        let room = gap - position % gap;
        if room < left { room } else { left }
    }

    /// Whether a run forward keeps a copy at a position.
    #[inline(always)]
    pub(crate) fn is_kept(&self, position: u64) -> bool {
        position % self.dense.max(1) == 0
    }

    /// Whether to run so many moves costs more than to restore a copy.
    pub(crate) fn is_far(&self, moves: u64) -> bool {
        moves > self.fine
    }

    /// Fits the gaps to how many bytes a copy takes: one more was made, and all take so many.
    pub(crate) fn fit(&mut self, count: usize, bytes: usize) {
        let size = if bytes > self.bytes {
            bytes - self.bytes
        } else {
            bytes / count.max(1)
        };
        self.bytes = bytes;
        self.fine = power_from(size as u64 / BYTES_A_MOVE).max(self.least);
        self.dense = power_from(size as u64).max(DENSE).max(self.least);
        self.sparse = self.sparse.max(self.dense);
    }

    /// Whether so many copies that take so many bytes are too many.
    pub(crate) fn is_crowded(&self, count: usize, bytes: usize) -> bool {
        count >= self.crowd || bytes > self.budget
    }

    /// Whether so many copies that take so many bytes leave room for some more.
    pub(crate) fn has_room(&self, count: usize, bytes: usize) -> bool {
        count <= MOST && bytes <= self.budget - self.budget / 4
    }

    /// Makes the gaps wider: those far away where most copies are there, else the others.
    pub(crate) fn widen(&mut self, count: usize, now: u64) {
        if now / self.sparse.max(1) > count as u64 / 2 {
            self.sparse = doubled(self.sparse);
        } else if self.width > 1 {
            self.width /= 2;
        } else {
            self.least = doubled(self.least);
            self.fine = self.fine.max(self.least);
            self.dense = self.dense.max(self.least);
            self.sparse = self.sparse.max(self.dense);
        }
    }

    /// Narrows the spacing again if that many copies take little memory.
    pub(crate) fn narrow(&mut self, count: usize, bytes: usize) {
        if count > MOST / 8 || bytes > self.budget / 8 {
            return;
        }
        if self.sparse > SPARSE && self.sparse > self.dense {
            self.sparse /= 2;
        } else if self.least > FINE {
            self.least /= 2;
        } else if self.width < WIDTH {
            self.width *= 2;
        }
    }

    /// Has it looked again only with some copies more than these, which take so many bytes.
    pub(crate) fn settle(&mut self, count: usize, bytes: usize) {
        self.crowd = count.saturating_add(MORE);
        self.bytes = bytes;
    }
}

/// Twice as much, up to 2^62.
fn doubled(gap: u64) -> u64 {
    gap.saturating_mul(2).min(1 << 62)
}
