//! Which request a frame is.

ghost use Rattle.std.specs.Prelude.{◌≡◌, ◌≢◌, IfSome, IfNone, IfOk, IfErr};
ghost use Rattle.request_frames.specs.Apis.{api_key, api_version, other_version, listed_apis, IsApi, IsNoApi};

use frame_fields::FrameError;

/// A kind of request that is read, in one version. From Deliver on they are this project's own.
#[derive(Clone, Copy)]
pub enum Api {
    /// Produce, version 3.
    Produce,
    /// Fetch, version 4.
    Fetch,
    /// ListOffsets, version 1.
    ListOffsets,
    /// Metadata, version 1.
    Metadata,
    /// OffsetCommit, version 2.
    OffsetCommit,
    /// OffsetFetch, version 1.
    OffsetFetch,
    /// FindCoordinator, version 0.
    FindCoordinator,
    /// ApiVersions, version 0.
    ApiVersions,
    /// InitProducerId, version 0.
    InitProducerId,
    /// Deliver, version 0.
    Deliver,
    /// Clean, version 0.
    Clean,
    /// Clean, version 1.
    CleanPart,
    /// Export, version 0.
    Export,
    /// Export, version 1.
    ExportDelta,
    /// Import, version 0.
    Import,
    /// Import, version 1.
    ImportDelta,
    /// Get, version 0.
    Get,
    /// Cover, version 0.
    Cover,
    /// ForgetGroup, version 0.
    ForgetGroup,
    /// Trim, version 0.
    Trim,
}

/// How many requests a client is told of.
pub const LISTED_API_COUNT: usize = 9;

impl Api {
    /// The requests of Kafka's own, by rising key: those that a client is told of.
    pub fn listed() -> [Api; LISTED_API_COUNT]
        ensures { result ≡ listed_apis }
    {
        [
            Api::Produce,
            Api::Fetch,
            Api::ListOffsets,
            Api::Metadata,
            Api::OffsetCommit,
            Api::OffsetFetch,
            Api::FindCoordinator,
            Api::ApiVersions,
            Api::InitProducerId,
        ]
    }

    /// The api key.
    pub fn key(self) -> i16
        ensures { result ≡ api_key self }
    {
        match self {
            Api::Produce => 0,
            Api::Fetch => 1,
            Api::ListOffsets => 2,
            Api::Metadata => 3,
            Api::OffsetCommit => 8,
            Api::OffsetFetch => 9,
            Api::FindCoordinator => 10,
            Api::ApiVersions => 18,
            Api::InitProducerId => 22,
            Api::Deliver => 20_000,
            Api::Clean => 20_001,
            Api::CleanPart => 20_001,
            Api::Export => 20_002,
            Api::ExportDelta => 20_002,
            Api::Import => 20_003,
            Api::ImportDelta => 20_003,
            Api::Get => 20_004,
            Api::Cover => 20_005,
            Api::ForgetGroup => 20_006,
            Api::Trim => 20_007,
        }
    }

    /// The version.
    pub fn version(self) -> i16
        ensures { result ≡ api_version self }
    {
        match self {
            Api::Produce => 3,
            Api::Fetch => 4,
            Api::ListOffsets => 1,
            Api::Metadata => 1,
            Api::OffsetCommit => 2,
            Api::OffsetFetch => 1,
            Api::FindCoordinator => 0,
            Api::ApiVersions => 0,
            Api::InitProducerId => 0,
            Api::Deliver => 0,
            Api::Clean => 0,
            Api::CleanPart => 1,
            Api::Export => 0,
            Api::ExportDelta => 1,
            Api::Import => 0,
            Api::ImportDelta => 1,
            Api::Get => 0,
            Api::Cover => 0,
            Api::ForgetGroup => 0,
            Api::Trim => 0,
        }
    }

    /// The request of this key, of several the one of the least version; `None` where none has it.
    fn of_key(key: i16) -> Option<Api>
        ensures found { IfSome result (λ api. key ≡ api_key api) }
        ensures none { IfNone result ((api : Api) → key ≢ api_key api) }
    {
        match key {
            0 => Some(Api::Produce),
            1 => Some(Api::Fetch),
            2 => Some(Api::ListOffsets),
            3 => Some(Api::Metadata),
            8 => Some(Api::OffsetCommit),
            9 => Some(Api::OffsetFetch),
            10 => Some(Api::FindCoordinator),
            18 => Some(Api::ApiVersions),
            22 => Some(Api::InitProducerId),
            20_000 => Some(Api::Deliver),
            20_001 => Some(Api::Clean),
            20_002 => Some(Api::Export),
            20_003 => Some(Api::Import),
            20_004 => Some(Api::Get),
            20_005 => Some(Api::Cover),
            20_006 => Some(Api::ForgetGroup),
            20_007 => Some(Api::Trim),
            _ => None,
        }
    }

    /// The request of the same key in its other version; itself, where it is read in one alone.
    fn in_other_version(self) -> Api
        ensures { result ≡ other_version self }
    {
        match self {
            Api::Clean => Api::CleanPart,
            Api::CleanPart => Api::Clean,
            Api::Export => Api::ExportDelta,
            Api::ExportDelta => Api::Export,
            Api::Import => Api::ImportDelta,
            Api::ImportDelta => Api::Import,
            _ => self,
        }
    }

    /// The request of this key and version. `UnknownApi` where none has the key, else `BadVersion`
    /// where it isn't read in this version.
    pub(crate) fn find(key: i16, version: i16) -> Result<Api, FrameError>
        ensures found { IfOk result (λ api. IsApi key version api) }
        ensures refused { IfErr result (IsNoApi key version) }
    {
        let Some(api) = Api::of_key(key) else {
            return Err(FrameError::UnknownApi);
        };
        let other = api.in_other_version();
        if version == api.version() {
            Ok(api)
        } else if version == other.version() {
            Ok(other)
        } else {
            Err(FrameError::BadVersion)
        }
    }
}
