// Layouts of files, as linkers make them.

/// The start of a part, in memory and in the file.
#[derive(Clone, Copy, PartialEq, Eq, Debug)]
pub struct Place {
    pub addr: u64,
    pub offset: u64,
}

/// The layout of a file. The program headers come after the file's header.
#[derive(Clone, Copy, PartialEq, Eq, Debug)]
pub struct Places {
    /// Constants of 16 bytes, in a segment of their own that begins with the file's header.
    pub constants: Option<Place>,
    /// The executable segment. It begins with the file's header if its offset is 0.
    pub segment: Place,
    /// The address of the instructions, 36 bytes at the end of the segment.
    pub code: u64,
    /// Data of 8 bytes, in a writable segment.
    pub data: Option<Place>,
    /// Whether there is too little room after the code, so that new code gets a segment of its own.
    pub is_tight: bool,
}

impl Places {
    /// Whether a segment loads the file's header and the program headers.
    pub fn loads_headers(&self) -> bool {
        self.constants.is_some() || self.segment.offset == 0
    }
}

/// The address of the first segment, which begins with the file's header.
pub const BASE: u64 = 0x10000;

// GNU ld with `-z noseparate-code`: headers and code in one segment, and data on a page of its own.
const JOINED: Places = Places {
    constants: None,
    segment: Place {
        addr: BASE,
        offset: 0,
    },
    code: 0x10400,
    data: Some(Place {
        addr: 0x11_0000,
        offset: 0x1000,
    }),
    is_tight: false,
};

const JOINED_TIGHT: Places = Places {
    code: 0x10fd0,
    data: Some(Place {
        addr: 0x11000,
        offset: 0x1000,
    }),
    is_tight: true,
    ..JOINED
};

// The data comes after the code in the file, and pages above it in memory; all other parts are as in `JOINED`.
const FOLLOWING: Places = Places {
    data: Some(Place {
        addr: 0x11_0428,
        offset: 0x428,
    }),
    ..JOINED
};

const FOLLOWING_TIGHT: Places = Places {
    data: Some(Place {
        addr: 0x11ff8,
        offset: 0xff8,
    }),
    ..JOINED_TIGHT
};

// GNU ld with `-z separate-code`: headers with constants, code, and data, each on pages of their own.
const SEPARATE: Places = Places {
    constants: Some(Place {
        addr: 0x10400,
        offset: 0x400,
    }),
    segment: Place {
        addr: 0x11000,
        offset: 0x1000,
    },
    code: 0x11000,
    data: Some(Place {
        addr: 0x11_1000,
        offset: 0x2000,
    }),
    is_tight: false,
};

const SEPARATE_TIGHT: Places = Places {
    code: 0x11fd0,
    data: Some(Place {
        addr: 0x12000,
        offset: 0x2000,
    }),
    is_tight: true,
    ..SEPARATE
};

// lld: the same segments. They follow one another in the file, and each is loaded on the page after the one before it.
const PACKED: Places = Places {
    constants: Some(Place {
        addr: 0x10400,
        offset: 0x400,
    }),
    segment: Place {
        addr: 0x11410,
        offset: 0x410,
    },
    code: 0x11410,
    data: Some(Place {
        addr: 0x12438,
        offset: 0x438,
    }),
    is_tight: false,
};

const PACKED_TIGHT: Places = Places {
    constants: Some(Place {
        addr: 0x10fc0,
        offset: 0xfc0,
    }),
    segment: Place {
        addr: 0x11fd0,
        offset: 0xfd0,
    },
    code: 0x11fd0,
    data: Some(Place {
        addr: 0x12ff8,
        offset: 0xff8,
    }),
    is_tight: true,
};

// No segment loads the headers, as with a linker script that leaves them out.
const APART: Places = Places {
    constants: None,
    segment: Place {
        addr: BASE,
        offset: 0x1000,
    },
    code: 0x10000,
    data: Some(Place {
        addr: 0x11_0000,
        offset: 0x2000,
    }),
    is_tight: false,
};

const APART_TIGHT: Places = Places {
    code: 0x10fd0,
    data: Some(Place {
        addr: 0x11000,
        offset: 0x2000,
    }),
    is_tight: true,
    ..APART
};

// Data below the code, as a linker script for a processor with flash memory has it.
const DATA_BELOW: Places = Places {
    data: Some(Place {
        addr: 0x8000,
        offset: 0x1000,
    }),
    ..JOINED
};

// Code without data.
const ALONE: Places = Places {
    data: None,
    ..JOINED
};

pub const LAYOUTS: [Places; 12] = [
    JOINED,
    JOINED_TIGHT,
    FOLLOWING,
    FOLLOWING_TIGHT,
    SEPARATE,
    SEPARATE_TIGHT,
    PACKED,
    PACKED_TIGHT,
    APART,
    APART_TIGHT,
    DATA_BELOW,
    ALONE,
];
