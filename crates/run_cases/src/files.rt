// The files of a run, and its words.
use mon_run::{MemoryFile, MemoryFiles, MemoryFolder};
use mon_value::{ListOf, OutOfMemory, Text};
use std::alloc::Global;

/// One zone with one leaf and one range, for one metric.
const CONFIG: &[u8] =
    b"{\"targets\":[{\"name\":\"T\",\"fields\":[{\"name\":\"u\",\"type\":\"text\"},\
    {\"name\":\"z\",\"type\":\"text\",\"location\":true}]}],\
    \"metrics\":[{\"name\":\"/m\",\"kind\":\"gauge\",\"type\":\"int\",\"column\":\"v\"}],\
    \"zones\":[{\"name\":\"east\",\"locations\":[\"e\"],\"leaves\":[\"e1\"],\
    \"ranges\":[{\"from\":[],\"leaves\":[\"e1\"]}]}]}";

/// Two feeds and a query beside each other, and a query behind them.
const SCRIPT: &[u8] =
    b"together\nfeed a.csv\nfeed b.csv\nquery 20 fetch T::/m\nend\nquery 20 fetch T::/m\n";

/// A folder of a configuration, a script and two files of points.
pub fn folder(alloc: Global) -> Result<MemoryFolder, OutOfMemory> {
    let mut files = ListOf::new(alloc);
    add(alloc, &mut files, "c.json", CONFIG)?;
    add(alloc, &mut files, "s.txt", SCRIPT)?;
    add(alloc, &mut files, "a.csv", b"T,/m,10,10,1,a,e\n")?;
    add(alloc, &mut files, "b.csv", b"T,/m,20,20,2,b,e\n")?;
    Ok(MemoryFolder::new(alloc, files, Vec::new(alloc)))
}

// A file more.
fn add(
    alloc: Global,
    files: &mut MemoryFiles,
    name: &str,
    bytes: &[u8],
) -> Result<(), OutOfMemory> {
    let mut content = Vec::new(alloc);
    content.extend_from_slice(bytes)?;
    files.push(MemoryFile {
        name: Text::from_str(alloc, name)?,
        content,
    })
}

/// The words that run the script.
pub fn words(alloc: Global) -> Result<Vec<String>, OutOfMemory> {
    let mut words = Vec::new(alloc);
    for word in ["run", "c.json", "s.txt"] {
        words.push(String::from_str(alloc, word)?)?;
    }
    Ok(words)
}
