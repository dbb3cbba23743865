//! Requests behind their sizes, those that may change something and others that only read, and the responses to them, byte
//! for byte: with memory, and where the work lacks it. All have correlation id 7; the bytes are worked out from docs/FORMATS.md.

/// A request, its response, and its response where the work lacks memory; none of a request whose work takes none.
#[derive(Clone, Copy)]
pub struct Exchange {
    /// What it is, in words.
    pub name: &'static str,
    /// Whether it may change something.
    pub changes: bool,
    /// The request.
    pub request: &'static [u8],
    /// The response where there is memory.
    pub response: &'static [u8],
    /// The response where the work lacks memory.
    pub failed: Option<&'static [u8]>,
}

/// A Produce request for partition 0 of `t`: `a` = 1.
pub const STORE_REQUEST: &[u8] =
    b"\0\0\0k\0\0\0\x03\0\0\0\x07\xff\xff\xff\xff\0\x01\0\0\x03\xe8\0\0\0\x01\0\x01t\0\0\0\x01\0\0\0\0\0\0\0F\0\0\0\0\0\0\0\0\0\0\0:\0\0\0\0\x022\xc83\x8d\0\0\0\0\0\0\0\0\0\0\0\0\0\0\0\0\0\0\0\0\0\0\xff\xff\xff\xff\xff\xff\xff\xff\xff\xff\xff\xff\xff\xff\0\0\0\x01\x10\0\0\0\x02a\x021\0";

/// The same, answered.
pub const STORE: Exchange = Exchange {
    name: "Produce",
    changes: true,
    request: STORE_REQUEST,
    response: b"\0\0\0)\0\0\0\x07\0\0\0\x01\0\x01t\0\0\0\x01\0\0\0\0\0\0\0\0\0\0\0\0\0\0\xff\xff\xff\xff\xff\xff\xff\xff\0\0\0\0",
    failed: Some(
        b"\0\0\0)\0\0\0\x07\0\0\0\x01\0\x01t\0\0\0\x01\0\0\0\0\08\xff\xff\xff\xff\xff\xff\xff\xff\xff\xff\xff\xff\xff\xff\xff\xff\0\0\0\0",
    ),
};

/// An OffsetCommit request of group `g`: offset 10 of partition 0 of `t`.
pub const COMMIT: Exchange = Exchange {
    name: "OffsetCommit",
    changes: true,
    request: b"\0\0\04\0\x08\0\x02\0\0\0\x07\xff\xff\0\x01g\xff\xff\xff\xff\0\0\xff\xff\xff\xff\xff\xff\xff\xff\0\0\0\x01\0\x01t\0\0\0\x01\0\0\0\0\0\0\0\0\0\0\0\x0a\0\0",
    response: b"\0\0\0\x15\0\0\0\x07\0\0\0\x01\0\x01t\0\0\0\x01\0\0\0\0\0\0",
    failed: Some(b"\0\0\0\x15\0\0\0\x07\0\0\0\x01\0\x01t\0\0\0\x01\0\0\0\0\08"),
};

/// An OffsetFetch request for it.
pub const POSITION: Exchange = Exchange {
    name: "OffsetFetch",
    changes: false,
    request: b"\0\0\0\x1c\0\x09\0\x01\0\0\0\x07\xff\xff\0\x01g\0\0\0\x01\0\x01t\0\0\0\x01\0\0\0\0",
    response: b"\0\0\0\x1f\0\0\0\x07\0\0\0\x01\0\x01t\0\0\0\x01\0\0\0\0\0\0\0\0\0\0\0\x0a\0\0\0\0",
    failed: Some(
        b"\0\0\0\x1f\0\0\0\x07\0\0\0\x01\0\x01t\0\0\0\x01\0\0\0\0\xff\xff\xff\xff\xff\xff\xff\xff\0\0\08",
    ),
};

/// A Get request for `a` in partition 0 of `t`.
pub const VALUE: Exchange = Exchange {
    name: "Get",
    changes: false,
    request: b"\0\0\0\x16N$\0\0\0\0\0\x07\xff\xff\0\x01t\0\0\0\0\0\0\0\x01a",
    response: b"\0\0\0\x0b\0\0\0\x07\0\0\0\0\0\x011",
    failed: None,
};

/// A Cover request for partition 0 of `t`.
pub const SEEN: Exchange = Exchange {
    name: "Cover",
    changes: false,
    request: b"\0\0\0\x11N%\0\0\0\0\0\x07\xff\xff\0\x01t\0\0\0\0",
    response: b"\0\0\0\x1a\0\0\0\x07\0\0\0\0\0\x01\0\0\0\0\0\0\0\0\0\0\0\0\0\0\0\0",
    failed: None,
};

/// An Export request for partition 0 of `t`.
pub const IMAGE: Exchange = Exchange {
    name: "Export",
    changes: false,
    request: b"\0\0\0\x11N\x22\0\0\0\0\0\x07\xff\xff\0\x01t\0\0\0\0",
    response: b"\0\0\0z\0\0\0\x07\0\0\0\0\0pKCPY\0\x01\0\0\0\0\0\0\0\0\0\0\0\x01\0\0\0\0\0\0\0\0\0\0\0\0\0\0\0\0\0\0\0\x01\0\0\0\0\0\0\0\0\0\0\0:\0\0\0\0\x022\xc83\x8d\0\0\0\0\0\0\0\0\0\0\0\0\0\0\0\0\0\0\0\0\0\0\xff\xff\xff\xff\xff\xff\xff\xff\xff\xff\xff\xff\xff\xff\0\0\0\x01\x10\0\0\0\x02a\x021\0n\x80<\x98",
    failed: Some(b"\0\0\0\x0a\0\0\0\x07\08\0\0\0\0"),
};

/// A Clean request for partition 0 of `t`.
pub const CLEAN: Exchange = Exchange {
    name: "Clean",
    changes: true,
    request: b"\0\0\0!N!\0\0\0\0\0\x07\xff\xff\0\x01t\0\0\0\0\0\0\0\0\0\0\0\x01\0\0\0\0\0\0\0\0",
    response: b"\0\0\0\x1e\0\0\0\x07\0\0\0\0\0\0\0\0\0\0\0\0\0\0\0\0\0\0\0\0\0\0\0\0\0\0",
    failed: Some(b"\0\0\0\x1e\0\0\0\x07\08\0\0\0\0\0\0\0\0\0\0\0\0\0\0\0\0\0\0\0\0\0\0\0\0"),
};

/// A Clean request of version 1 for partition 0 of `t`: for the offsets below 1.
pub const CLEAN_PART: Exchange = Exchange {
    name: "Clean of a part",
    changes: true,
    request: b"\0\0\01N!\0\x01\0\0\0\x07\xff\xff\0\x01t\0\0\0\0\0\0\0\0\0\0\0\0\0\0\0\0\0\0\0\x01\0\0\0\0\0\0\0\x01\0\0\0\0\0\0\0\0",
    response: b"\0\0\0\x1e\0\0\0\x07\0\0\0\0\0\0\0\0\0\0\0\0\0\0\0\0\0\0\0\0\0\0\0\0\0\0",
    failed: Some(b"\0\0\0\x1e\0\0\0\x07\08\0\0\0\0\0\0\0\0\0\0\0\0\0\0\0\0\0\0\0\0\0\0\0\0"),
};

/// A Trim request for partition 0 of `t`: to offset 1.
pub const TRIM: Exchange = Exchange {
    name: "Trim",
    changes: true,
    request: b"\0\0\0\x19N'\0\0\0\0\0\x07\xff\xff\0\x01t\0\0\0\0\0\0\0\0\0\0\0\x01",
    response: b"\0\0\0\x06\0\0\0\x07\0\0",
    failed: None,
};

/// A ForgetGroup request of group `g`.
pub const FORGET: Exchange = Exchange {
    name: "ForgetGroup",
    changes: true,
    request: b"\0\0\0\x0dN&\0\0\0\0\0\x07\xff\xff\0\x01g",
    response: b"\0\0\0\x0a\0\0\0\x07\0\0\0\0\0\x01",
    failed: Some(b"\0\0\0\x0a\0\0\0\x07\08\0\0\0\0"),
};

/// An Import request for partition 0 of `u`, with one batch: `a` = 1.
pub const TAKE: Exchange = Exchange {
    name: "Import",
    changes: true,
    request: b"\0\0\0}N#\0\0\0\0\0\x07\xff\xff\0\x01u\0\0\0\0\0\0\0hKCPY\0\0\0\0\0\x01\0\0\0\0\0\0\0\0\0\0\0\0\0\0\0\0\0\0\0\x01\0\0\0\0\0\0\0\0\0\0\0:\0\0\0\0\x022\xc83\x8d\0\0\0\0\0\0\0\0\0\0\0\0\0\0\0\0\0\0\0\0\0\0\xff\xff\xff\xff\xff\xff\xff\xff\xff\xff\xff\xff\xff\xff\0\0\0\x01\x10\0\0\0\x02a\x021\0[\x12v\x96",
    response: b"\0\0\0\x06\0\0\0\x07\0\0",
    failed: Some(b"\0\0\0\x06\0\0\0\x07\08"),
};

/// A Deliver request for partition 0 of `t`: `a` = 1 at offset 0.
pub const DELIVER: Exchange = Exchange {
    name: "Deliver",
    changes: true,
    request: b"\0\0\0[N\x20\0\0\0\0\0\x07\xff\xff\0\x01t\0\0\0\0\0\0\0F\0\0\0\0\0\0\0\0\0\0\0:\0\0\0\0\x022\xc83\x8d\0\0\0\0\0\0\0\0\0\0\0\0\0\0\0\0\0\0\0\0\0\0\xff\xff\xff\xff\xff\xff\xff\xff\xff\xff\xff\xff\xff\xff\0\0\0\x01\x10\0\0\0\x02a\x021\0",
    response: b"\0\0\0\x07\0\0\0\x07\0\0\0",
    failed: Some(b"\0\0\0\x07\0\0\0\x07\08\0"),
};

/// An Import request for partition 0 of `t`, with one batch: `b` = 2 at offset 1.
pub const MERGE: Exchange = Exchange {
    name: "Import into a copy",
    changes: true,
    request: b"\0\0\0}N#\0\0\0\0\0\x07\xff\xff\0\x01t\0\0\0\0\0\0\0hKCPY\0\0\0\0\0\x01\0\0\0\0\0\0\0\x01\0\0\0\0\0\0\0\x01\0\0\0\x01\0\0\0\0\0\0\0\x01\0\0\0:\0\0\0\0\x02d\x0d\x12-\0\0\0\0\0\0\0\0\0\0\0\0\0\0\0\0\0\0\0\0\0\0\xff\xff\xff\xff\xff\xff\xff\xff\xff\xff\xff\xff\xff\xff\0\0\0\x01\x10\0\0\0\x02b\x022\0\xf4R\xc5\xb5",
    response: b"\0\0\0\x06\0\0\0\x07\0\0",
    failed: Some(b"\0\0\0\x06\0\0\0\x07\08"),
};

/// An Export request of version 1 for partition 0 of `t`: offset 1 was asked.
pub const DELTA: Exchange = Exchange {
    name: "Export of a delta",
    changes: false,
    request: b"\0\0\0%N\x22\0\x01\0\0\0\x07\xff\xff\0\x01t\0\0\0\0\0\0\0\x01\0\0\0\0\0\0\0\x01\0\0\0\0\0\0\0\x01",
    response: b"\0\0\0\x8f\0\0\0\x07\0\0\0\0\0\x85KDLT\0\x01\0\0\0\0\0\0\0\0\0\0\0\x01\0\0\0\0\0\0\0\0\0\0\0\0\0\0\0\0\0\0\0\x01\0\0\0\0\0\0\0\x01\0\0\0\0\0\0\0\x01\0\0\0\x01\x01\0\0\0\0\0\0\0\0\0\0\0:\0\0\0\0\x022\xc83\x8d\0\0\0\0\0\0\0\0\0\0\0\0\0\0\0\0\0\0\0\0\0\0\xff\xff\xff\xff\xff\xff\xff\xff\xff\xff\xff\xff\xff\xff\0\0\0\x01\x10\0\0\0\x02a\x021\0\xc7t!^",
    failed: Some(b"\0\0\0\x0a\0\0\0\x07\08\0\0\0\0"),
};

/// An Import request of version 1 for partition 0 of `t`: lists of two batches that were asked, and one more: `c` = 3 at
/// offset 2.
pub const PATCH: Exchange = Exchange {
    name: "Import of a delta",
    changes: true,
    request: b"\0\0\0\xc4N#\0\x01\0\0\0\x07\xff\xff\0\x01t\0\0\0\0\0\0\0\xafKDLT\0\x01\0\0\0\0\0\0\0\0\0\0\0\x01\0\0\0\0\0\0\0\0\0\0\0\0\0\0\0\x02\0\0\0\x01\0\0\0\0\0\0\0\0\0\0\0\0\0\0\0\x01\0\0\0\x03\0\0\0\0\0\0\0\0\0\0\0\0\x01\0\0\0\0\0\0\0\0\0\0\0\0\0\0\0\0\x01\0\0\0\x01\0\0\0\0\0\0\0\x01\x01\0\0\0\0\0\0\0\x02\0\0\0:\0\0\0\0\x02\xaa\xea\x20\xe2\0\0\0\0\0\0\0\0\0\0\0\0\0\0\0\0\0\0\0\0\0\0\xff\xff\xff\xff\xff\xff\xff\xff\xff\xff\xff\xff\xff\xff\0\0\0\x01\x10\0\0\0\x02c\x023\0O\xa6\xfbV",
    response: b"\0\0\0\x06\0\0\0\x07\0\0",
    failed: Some(b"\0\0\0\x06\0\0\0\x07\08"),
};

/// ApiVersions, and the nine requests.
pub const VERSIONS: Exchange = Exchange {
    name: "ApiVersions",
    changes: false,
    request: b"\0\0\0\x0a\0\x12\0\0\0\0\0\x07\xff\xff",
    response: b"\0\0\0@\0\0\0\x07\0\0\0\0\0\x09\0\0\0\x03\0\x03\0\x01\0\x04\0\x04\0\x02\0\x01\0\x01\0\x03\0\x01\0\x01\0\x08\0\x02\0\x02\0\x09\0\x01\0\x01\0\x0a\0\0\0\0\0\x12\0\0\0\0\0\x16\0\0\0\0",
    failed: None,
};

/// FindCoordinator for `g`, and the broker, node 1 at `hhh`, port 9092.
pub const COORDINATOR: Exchange = Exchange {
    name: "FindCoordinator",
    changes: false,
    request: b"\0\0\0\x0d\0\x0a\0\0\0\0\0\x07\xff\xff\0\x01g",
    response: b"\0\0\0\x13\0\0\0\x07\0\0\0\0\0\x01\0\x03hhh\0\0#\x84",
    failed: None,
};

/// InitProducerId, and id 0 with epoch 0.
pub const PRODUCER_ID: Exchange = Exchange {
    name: "InitProducerId",
    changes: true,
    request: b"\0\0\0\x10\0\x16\0\0\0\0\0\x07\xff\xff\xff\xff\0\0\0\0",
    response: b"\0\0\0\x14\0\0\0\x07\0\0\0\0\0\0\0\0\0\0\0\0\0\0\0\0",
    failed: None,
};

/// The Produce request with acks 0, which has no response.
pub const SILENT: Exchange = Exchange {
    name: "Produce with acks 0",
    changes: true,
    request: b"\0\0\0k\0\0\0\x03\0\0\0\x07\xff\xff\xff\xff\0\0\0\0\x03\xe8\0\0\0\x01\0\x01t\0\0\0\x01\0\0\0\0\0\0\0F\0\0\0\0\0\0\0\0\0\0\0:\0\0\0\0\x022\xc83\x8d\0\0\0\0\0\0\0\0\0\0\0\0\0\0\0\0\0\0\0\0\0\0\xff\xff\xff\xff\xff\xff\xff\xff\xff\xff\xff\xff\xff\xff\0\0\0\x01\x10\0\0\0\x02a\x021\0",
    response: b"",
    failed: Some(b""),
};

/// InitProducerId once more, and id 1 with epoch 0.
pub const NEXT_PRODUCER_ID: Exchange = Exchange {
    name: "InitProducerId once more",
    changes: true,
    request: b"\0\0\0\x10\0\x16\0\0\0\0\0\x07\xff\xff\xff\xff\0\0\0\0",
    response: b"\0\0\0\x14\0\0\0\x07\0\0\0\0\0\0\0\0\0\0\0\0\0\x01\0\0",
    failed: None,
};
