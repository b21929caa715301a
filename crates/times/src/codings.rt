// The two codings of times in files, and the versions of those files.
ghost use Rattle.std.specs.Prelude.{◌≡◌};
ghost use Rattle.times.specs.Coding.{VersionNames, version_of, width_of};

// What the times of a file have.
#[derive(Clone, Copy, PartialEq, Eq, Debug)]
pub enum Kind {
    // ticks alone
    Whole,
    // ticks and grains
    Fine,
}

// A number that is the version of no file.
#[derive(Clone, Copy, PartialEq, Eq, Debug)]
pub struct UnknownVersion(pub u16);

impl Kind {
    // The version of the files whose times are of the kind.
    pub fn version(self) -> u16
        ensures { result ≡ version_of self }
    {
        match self {
            Kind::Whole => 1,
            Kind::Fine => 2,
        }
    }

    // How many bytes a time of the kind takes.
    pub fn width(self) -> usize
        ensures { result ≡ width_of self }
    {
        match self {
            Kind::Whole => 4,
            Kind::Fine => 8,
        }
    }
}

// The kind of the files of a version.
impl TryFrom<u16> for Kind {
    type Error = UnknownVersion;

    ghost try_from_gives = { VersionNames };

    fn try_from(version: u16) -> Result<Kind, UnknownVersion> {
        match version {
            1 => Ok(Kind::Whole),
            2 => Ok(Kind::Fine),
            _ => Err(UnknownVersion(version)),
        }
    }
}
