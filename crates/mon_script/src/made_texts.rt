// The configuration and the script of a made input, and the lines in front of its files.
ghost use Rattle.std.specs.Prelude.{◌≡◌, IfOk};
ghost use Rattle.mon_script.specs.Made as spec;

use mon_value::{OutOfMemory, Text};
use std::alloc::Global;

/// The script of an input: its files are fed in one block, and then asked.
const SCRIPT: &str = "together
feed p0.csv
feed p1.csv
feed p2.csv
feed p3.csv
end
query 1000 fetch Task::/work | align delta(1000s)
query 1000 fetch Task::/work | align delta(1000s) | group_by [], sum(work)
query 1000 fetch Task::/work | align delta(1000s) | group_by [cluster], sum(work)
query 1000 fetch Task::/work | align delta(1000s) | group_by [job], mean(work)
query 1000 fetch Task::/work | align delta(1000s) | top 10, work
query 1000 fetch Task::/work | filter user==\"u1\" | align delta(500s)
query 1000 fetch Task::/work | filter job=~\".*ob7\" | align delta(1000s) | group_by [user, job], max(work)
query 1000 {fetch Task::/work | align delta(1000s);fetch Task::/work | align delta(1000s)}|join|group_by [], count()
";

/// The configuration of an input: one location in each of four zones, and two ranges that each of its leaves holds.
const CONFIG: &str = "\
    {\"targets\":[{\"name\":\"Task\",\"fields\":[{\"name\":\"user\",\"type\":\"text\"},\
    {\"name\":\"job\",\"type\":\"text\"},{\"name\":\"cluster\",\"type\":\"text\",\"location\":true},\
    {\"name\":\"task\",\"type\":\"int\"}]}],\
    \"metrics\":[{\"name\":\"/work\",\"kind\":\"delta\",\"type\":\"int\",\"column\":\"work\"}],\
    \"zones\":[\
    {\"name\":\"z0\",\"locations\":[\"c0\"],\"leaves\":[\"z0a\",\"z0b\"],\
    \"ranges\":[{\"from\":[],\"leaves\":[\"z0a\",\"z0b\"]},{\"from\":[\"Task\",\"u2\"],\"leaves\":[\"z0b\",\"z0a\"]}]},\
    {\"name\":\"z1\",\"locations\":[\"c1\"],\"leaves\":[\"z1a\",\"z1b\"],\
    \"ranges\":[{\"from\":[],\"leaves\":[\"z1a\",\"z1b\"]},{\"from\":[\"Task\",\"u2\"],\"leaves\":[\"z1b\",\"z1a\"]}]},\
    {\"name\":\"z2\",\"locations\":[\"c2\"],\"leaves\":[\"z2a\",\"z2b\"],\
    \"ranges\":[{\"from\":[],\"leaves\":[\"z2a\",\"z2b\"]},{\"from\":[\"Task\",\"u2\"],\"leaves\":[\"z2b\",\"z2a\"]}]},\
    {\"name\":\"z3\",\"locations\":[\"c3\"],\"leaves\":[\"z3a\",\"z3b\"],\
    \"ranges\":[{\"from\":[],\"leaves\":[\"z3a\",\"z3b\"]},{\"from\":[\"Task\",\"u2\"],\"leaves\":[\"z3b\",\"z3a\"]}]}]}
";

/// The configuration of a number's input, which is the same for each number.
pub fn made_config(alloc: Global, _number: u64) -> Result<Text, OutOfMemory>
    ensures config { IfOk result (λ text. text ≡ spec.made_config) }
{
    Text::from_str(alloc, CONFIG)
}

/// The script of a number's input, which is the same for each number.
pub fn made_script(alloc: Global, _number: u64) -> Result<Text, OutOfMemory>
    ensures script { IfOk result (λ text. text ≡ spec.made_script) }
{
    Text::from_str(alloc, SCRIPT)
}
