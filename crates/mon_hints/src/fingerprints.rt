// The number that stands for an excerpt of a field: 64-bit FNV-1a.
ghost use Rattle.std.specs.Prelude.{◌≡◌, ◌<◌, ◌%◌};
ghost use Rattle.mon_hints.specs.Hints as spec;
ghost use Rattle.mon_hints.specs.Labels.{with_label};

use mon_value::ListOf;

const START: u64 = 14_695_981_039_346_656_037;

const FACTOR: u64 = 1_099_511_628_211;

/// Buckets, each a number below their number.
pub type Buckets = ListOf<u32>;

/// The bucket, among so many, of an excerpt of a schema's field. The one excerpt of a field without a name is the
/// metric.
pub fn bucket_of(schema: &[u8], field: &[u8], excerpt: &[u8], buckets: u32) -> u32
    requires { 0 < buckets }
    ensures bucket { result ≡ spec.bucket_of buckets schema.now field.now excerpt.now }
    ensures below { result < buckets }
{
    Fingerprint::of_schema(schema)
        .of_field(field)
        .with_bytes(excerpt)
        .bucket(buckets)
}

/// A fingerprint of the bytes so far.
#[derive(Clone, Copy)]
pub(crate) struct Fingerprint {
    pub(crate) state: u64,
}

impl Fingerprint {
    /// That of a schema's name and the zero behind it.
    pub(crate) fn of_schema(schema: &[u8]) -> Fingerprint
        ensures bytes { result.state ≡ with_label START schema.now }
    {
        Fingerprint { state: START }.with_bytes(schema).with_byte(0)
    }

    /// That of a field, of the schema whose name stands in front of it.
    pub(crate) fn of_field(self, field: &[u8]) -> Fingerprint
        ensures bytes { result.state ≡ with_label self.state field.now }
    {
        self.with_bytes(field).with_byte(0)
    }

    pub(crate) fn with_bytes(self, bytes: &[u8]) -> Fingerprint
        ensures bytes { result.state ≡ spec.with_bytes self.state bytes.now }
    {
        let mut fingerprint = self;
        for byte in bytes {
            fingerprint = fingerprint.with_byte(*byte);
        }
        fingerprint
    }

    fn with_byte(self, byte: u8) -> Fingerprint
        ensures byte { result.state ≡ spec.with_byte self.state byte }
    {
        Fingerprint {
            state: (self.state ^ u64::from(byte)).wrapping_mul(FACTOR),
        }
    }

    /// The bucket, among so many.
    pub(crate) fn bucket(self, buckets: u32) -> u32
        requires { 0 < buckets }
        ensures bucket { result ≡ self.state % buckets }
        ensures below { result < buckets }
    {
        (self.state % u64::from(buckets)) as u32
    }
}
