//! Rules and keys that tests share.

/// The file `examples/sample.rules`.
pub const SAMPLE: &str =
    r"; Who may do what on this node. The first rule that is for a packet decides.

; Commands that change routes, strategies or the cache: signed by the key of operators.
rule
{
  id ops
  for interest
  filter
  {
    type name
    name /localhost/nfd
    relation is-prefix-of
  }
  checker
  {
    type customized
    sig-type hmac-sha256
    key-locator
    {
      type name
      name /ops/KEY/1
      relation equal
    }
  }
}

; Commands of the repository: the same key.
rule
{
  id repo-ops
  for interest
  filter
  {
    type name
    name /repo
    relation is-prefix-of
  }
  checker
  {
    type customized
    sig-type hmac-sha256
    key-locator
    {
      type name
      name /ops/KEY/1
      relation equal
    }
  }
}

; Data of any name, with a digest as its signature.
rule
{
  id any-data
  for data
  checker
  {
    type customized
    sig-type sha256
  }
}
";

/// The key file of the tests. The octets of each key are the text `key` in ASCII.
pub const KEYS: &str = r"/ops/KEY/1 6b6579
/archive/KEY/1 6b6579
/lab/roof/KEY/7 6b6579
/sensors/roof/KEY/7 6b6579
/keys/roof/KEY/7 6b6579
/a/b/KEY/1 6b6579
/k/b 6b6579
/l/b 6b6579
/1/2/3/4/5/6/7/8 6b6579
/ops/KEY/1/2 6b6579
/ops/KEY/1/2/3 6b6579
/ops/KEY/1/2/3/4 6b6579
/ops/KEY 6b6579
/ops/1 6b6579
/KEY/1 6b6579
/ops/9=KEY/1 6b6579
/ops/KE/1 6b6579
/a/KEY/b/KEY/c 6b6579
/a/KEY/b/KEY 6b6579
/a/KEY/KEY/1 6b6579
/a/KEY/KEY 6b6579
";
