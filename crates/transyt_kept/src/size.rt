//! The size of rows, and of one table among them.

ghost use Rattle.std.specs.Prelude.{◌≡◌, ◌+◌, ◌*◌, ◌≤◌};

/// How many steps, sweeps and links rows have, within the limits of a network.
#[derive(Clone, Copy)]
pub struct Size {
    /// The steps of the cycle.
    pub step_count: usize,
    /// The sweeps, the uniform start apart.
    pub sweeps: u32,
    /// The links.
    pub link_count: usize,
    ghost steps_most: { step_count ≤ 120 },
    ghost sweeps_most: { sweeps ≤ 8 },
    ghost links_most: { link_count ≤ 1000 },
}

impl Size {
    /// The size of the table of departures, which has a row for each link of each sweep.
    pub(crate) fn pairs(self) -> TableSize
        ensures row_count { result.row_count ≡ (self.sweeps + 1) * self.link_count }
        ensures step_count { result.step_count ≡ self.step_count }
    {
        TableSize {
            row_count: (self.sweeps + 1) * self.link_count as u32,
            step_count: self.step_count as u32,
        }
    }

    /// The size of a table of the last sweep, which has a row for each link.
    pub(crate) fn links(self) -> TableSize
        ensures row_count { result.row_count ≡ self.link_count }
        ensures step_count { result.step_count ≡ self.step_count }
    {
        TableSize {
            row_count: self.link_count as u32,
            step_count: self.step_count as u32,
        }
    }
}

/// How many rows a table has, and how many values each of them.
#[derive(Clone, Copy)]
pub(crate) struct TableSize {
    /// The rows.
    pub(crate) row_count: u32,
    /// The values of a row, one for each step.
    pub(crate) step_count: u32,
    ghost rows_most: { row_count ≤ 9000 },
    ghost steps_most: { step_count ≤ 120 },
}

impl TableSize {
    /// How many values two versions of all rows have.
    pub(crate) fn value_count(self) -> usize
        ensures { result ≡ 2 * self.row_count * self.step_count }
    {
        2 * self.row_count as usize * self.step_count as usize
    }
}
