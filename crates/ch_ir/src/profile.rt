ghost use Rattle.std.specs.Prelude.{◌≡◌};
ghost use Rattle.ch_ir.specs.Profile.{default_settings};

/// The limits of the switch and the sizes of the operators.
#[derive(Clone, Copy, Debug)]
pub struct Profile {
    /// Stages of a program.
    pub stages: u32,
    /// Cells of an array.
    pub cells: u32,
    /// Ops of a stage.
    pub ops: u32,
    /// Words of a program, the given ones among them.
    pub words: u32,
    /// Words that a row gives.
    pub width: u32,
    /// How far a worker may send beyond its least unacknowledged number.
    pub window: u32,
    /// Hash rows of DISTINCT.
    pub distinct_rows: u32,
    /// Keys of a hash row of DISTINCT.
    pub distinct_cols: u32,
    /// Hash rows of GROUP BY.
    pub group_rows: u32,
    /// Keys of a hash row of GROUP BY.
    pub group_cols: u32,
    /// Thresholds of the first N beyond the first.
    pub top_steps: u32,
    /// The distance of the first two thresholds.
    pub top_gap: u32,
    /// Arrays of the sketch.
    pub sketch_hashes: u32,
    /// Cells of an array of the sketch.
    pub sketch_cells: u32,
    /// Arrays of a Bloom filter.
    pub bloom_hashes: u32,
    /// Cells of an array of a Bloom filter.
    pub bloom_cells: u32,
    /// Stored points of a skyline.
    pub skyline_points: u32,
}

/// The profile of the default settings, which a profile text changes.
pub fn default_profile() -> Profile
    ensures { result ≡ default_settings }
{
    Profile {
        stages: 32,
        cells: 131_072,
        ops: 64,
        words: 2048,
        width: 20,
        window: 32,
        distinct_rows: 4096,
        distinct_cols: 4,
        group_rows: 4096,
        group_cols: 4,
        top_steps: 8,
        top_gap: 1,
        sketch_hashes: 3,
        sketch_cells: 4096,
        bloom_hashes: 3,
        bloom_cells: 4096,
        skyline_points: 10,
    }
}
