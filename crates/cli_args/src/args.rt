// The arguments of the commands.

/// The names of the files of an input and of its profile.
#[derive(Clone, Copy)]
pub struct InputArgs<'a> {
    pub file: &'a str,
    pub profile: &'a str,
}

/// The arguments of `rewrite`: an input and its profile, and the names of the output and of the map.
#[derive(Clone, Copy)]
pub struct RewriteArgs<'a> {
    pub inputs: InputArgs<'a>,
    pub out: &'a str,
    pub map: &'a str,
}

/// The file that is run, the arguments that the program gets, without the file's name, and the limit on its steps.
#[derive(Clone, Copy)]
pub struct RunArgs<'a> {
    pub file: &'a str,
    pub args: &'a [String],
    pub limit: u64,
}

/// The run that is recorded, and the name of the file for its profile.
#[derive(Clone, Copy)]
pub struct RecordArgs<'a> {
    pub run: RunArgs<'a>,
    pub out: &'a str,
}

/// The arguments of `repair`: an input and its profile, and the name of the file for the repaired profile.
#[derive(Clone, Copy)]
pub struct RepairArgs<'a> {
    pub inputs: InputArgs<'a>,
    pub out: &'a str,
}

/// The arguments of `lookup` and of `frames`: the name of a file, and an address.
#[derive(Clone, Copy)]
pub struct LookupArgs<'a> {
    pub file: &'a str,
    pub address: u64,
}

/// The arguments of `sample`: a number from 1 to 1000, and the names of the sample's file and of its profile.
#[derive(Clone, Copy)]
pub struct SampleArgs<'a> {
    pub number: u16,
    pub file: &'a str,
    pub profile: &'a str,
}

/// The arguments of `verify`: the names of an input, of an output, and of the map from one to the other.
#[derive(Clone, Copy)]
pub struct VerifyArgs<'a> {
    pub input: &'a str,
    pub output: &'a str,
    pub map: &'a str,
}
