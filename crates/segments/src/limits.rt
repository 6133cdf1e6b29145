/// How many blocks a full segment has, and how many segments a relation may have.
#[derive(Clone, Copy, Debug, PartialEq, Eq)]
pub struct Limits {
    pub segment: u32,
    pub segments: u32,
}

impl Limits {
    ghost use Rattle.std.specs.Prelude.{◌≡◌};
    ghost use Rattle.segments.specs.Limits.{AreLimits};

    /// PostgreSQL's own segments, of 1 GiB (`RELSEG_SIZE` of `pg_config.h`), and three of them.
    pub fn default() -> Limits
        ensures limits { AreLimits result }
        ensures segment { result.segment ≡ 131072 }
        ensures segments { result.segments ≡ 3 }
    {
        Limits {
            segment: 131_072,
            segments: 3,
        }
    }
}
