//! What no clause says: what a collection does move by move, and that each answer comes, with ample memory.
use crate::checks::tells;
use cmc_collector::{CollectEntry, CollectLack, CollectMove, Collected, Collection};
use cmc_meta::{Key, Kind, Numbers, OwnerRef, Owners};
use cmc_objects::{Call, Object, Parts, Reply, Secret};
use cmc_tests::values::{key, name, new_meta, text};
use std::alloc::Global;
use std::process::Abort;
use std::rt::HostRuntime;
use std::test::Fail;

/// Steps: `+a` applies the Secret `a`, `+b<sa1<cd2` the Secret `b` owned by the Secret `a` of uid 1 and the Certificate `d` of
/// uid 2; `-a` deletes the Secret `a`; `S3` and `C3` tell the cache of Secrets, of Certificates, up to 3; `?b` examines the
/// Secret `b`; `!` settles.
///
/// Told are the entries: `u:` a call of a user, `S3` a delivery, `S=3` a list, `b?a:` a look for `a`, `b-2:` a delete at
/// version 2; and in brackets the answers that are not Done.
struct Row {
    name: &'static str,
    window: u64,
    /// The call that fails; none for 0.
    fault: u64,
    events: u64,
    steps: &'static str,
    told: &'static str,
}

static ROWS: [Row; 18] = [
    Row {
        name: "an owner is gone",
        window: 9,
        fault: 0,
        events: 50,
        steps: "+a +b<sa1 -a !",
        told: "u:ok1 u:ok2 u:ok3 S3 b?a:none3 b-2:ok4 S4",
    },
    Row {
        name: "somebody is faster",
        window: 9,
        fault: 0,
        events: 50,
        steps: "+a +b<sa1 -a S3 +b ?b ?b ?b",
        told: "u:ok1 u:ok2 u:ok3 S3 u:ok4 b?a:none4 b-2:conflict4 b?a:none4",
    },
    Row {
        name: "the owner's name is used anew",
        window: 9,
        fault: 0,
        events: 50,
        steps: "+a +b<sa1 -a +a !",
        told: "u:ok1 u:ok2 u:ok3 u:ok4 S4 b?a:found4 b-2:ok5 S5",
    },
    Row {
        name: "a uid that was not given out",
        window: 9,
        fault: 0,
        events: 50,
        steps: "+b<sa9 ! ?b",
        told: "u:ok1 S1 (no orphan)",
    },
    Row {
        name: "a look that is not answered",
        window: 9,
        fault: 4,
        events: 50,
        steps: "+a +b<sa1 -a !",
        told: "u:ok1 u:ok2 u:ok3 S3 b?a:unavailable4 b?a:none3 b-2:ok4 S4",
    },
    Row {
        name: "a delete that is not answered",
        window: 9,
        fault: 5,
        events: 50,
        steps: "+a +b<sa1 -a !",
        told: "u:ok1 u:ok2 u:ok3 S3 b?a:none3 b-2:unavailable5 b?a:none3 b-2:ok4 S4",
    },
    Row {
        name: "one of two owners lives",
        window: 9,
        fault: 0,
        events: 50,
        steps: "+a +c +b<sa1<sc2 -a !",
        told: "u:ok1 u:ok2 u:ok3 u:ok4 S4",
    },
    Row {
        name: "an owner that came after what the caches show is found by the look",
        window: 9,
        fault: 0,
        events: 50,
        steps: "+a +b<sa1<sc5 -a +z S4 +c ?b ?b ?b",
        told: "u:ok1 u:ok2 u:ok3 u:ok4 S4 u:ok5 b?a:none5 b?c:found5 b?a:none5",
    },
    Row {
        name: "an owner lives",
        window: 9,
        fault: 0,
        events: 50,
        steps: "+z +y -z +c +b<sc4 S3 S5 ?b",
        told: "u:ok1 u:ok2 u:ok3 u:ok4 u:ok5 S3 S5 (no orphan)",
    },
    Row {
        name: "both owners are looked for, in their order",
        window: 9,
        fault: 0,
        events: 50,
        steps: "+c +a +b<sc1<sa2 -a -c !",
        told: "u:ok1 u:ok2 u:ok3 u:ok4 u:ok5 S5 b?c:none5 b?a:none5 b-3:ok6 S6",
    },
    Row {
        name: "an owner of another kind with the same name",
        window: 9,
        fault: 0,
        events: 50,
        steps: "+a +b<ca1 !",
        told: "u:ok1 u:ok2 S2 b?a:none2 b-2:ok3 S3",
    },
    Row {
        name: "a chain of owners goes in one settle",
        window: 9,
        fault: 0,
        events: 50,
        steps: "+a +b<sa1 +c<sb2 -a !",
        told: "u:ok1 u:ok2 u:ok3 u:ok4 S4 b?a:none4 b-2:ok5 S5 c?b:none5 c-3:ok6 S6",
    },
    Row {
        name: "a uid that is given out later",
        window: 9,
        fault: 0,
        events: 50,
        steps: "+b<sa2 ! +a ! -a !",
        told: "u:ok1 S1 u:ok2 S2 u:ok3 S3 b?a:none3 b-1:ok4 S4",
    },
    Row {
        name: "a window of one write",
        window: 1,
        fault: 0,
        events: 50,
        steps: "+a +b<sa1 S1 -a ! S4",
        told: "u:ok1 u:ok2 S=2 u:ok3 S3 b?a:none3 b-2:ok4 S4 (current 4)",
    },
    Row {
        name: "each refusal of a delivery",
        window: 9,
        fault: 0,
        events: 50,
        steps: "S1 +a +c S3 C1 S2 S2 S1",
        told: "(current 0) u:ok1 u:ok2 (no write 3) (current 0) S2 (current 2) (current 2)",
    },
    Row {
        name: "an examination that goes on is an orphan to the caches no more, and ends by itself",
        window: 9,
        fault: 0,
        events: 50,
        steps: "+a +b<sa1 -a S3 ?b +b S4 !",
        told: "u:ok1 u:ok2 u:ok3 S3 b?a:none3 u:ok4 S4 b-2:conflict4",
    },
    Row {
        name: "the entries are used up by a settle",
        window: 9,
        fault: 0,
        events: 5,
        steps: "+a +b<sa1 -a ! ! +a S9 ?a",
        told: "u:ok1 u:ok2 u:ok3 S3 b?a:none3 (spent 5) (spent 5) (spent 5) (current 3) (no orphan)",
    },
    Row {
        name: "the entries are used up by a delivery",
        window: 9,
        fault: 0,
        events: 1,
        steps: "+a S1 S2",
        told: "u:ok1 (spent 1) (no write 2)",
    },
];

/// The part of the text after its first letter.
fn rest(text: &str) -> &str {
    let mut letters = text.chars();
    letters.next();
    letters.as_str()
}

fn number(text: &str) -> u64 {
    cmc_tests::values::number(text).unwrap_or(0)
}

fn owner(alloc: Global, word: &str) -> Result<OwnerRef, Fail> {
    let kind = if word.starts_with('c') {
        Kind::Certificate
    } else {
        Kind::Secret
    };
    let named = rest(word);
    Ok(OwnerRef {
        kind,
        name: name(alloc, named.get(0..1).unwrap_or("x"))?,
        uid: number(rest(named)),
        controller: false,
    })
}

fn owners(alloc: Global, words: &str) -> Result<Owners, Fail> {
    let mut owners = Owners::new(alloc);
    for word in words.split('<').skip(1) {
        owners.push(owner(alloc, word)?)?;
    }
    Ok(owners)
}

/// The Secret of a word such as `b<sa1`.
fn secret(alloc: Global, word: &str) -> Result<Object, Fail> {
    let mut meta = new_meta(alloc, word.get(0..1).unwrap_or("x"))?;
    meta.owners = owners(alloc, word)?;
    Ok(Object::of_secret(
        alloc,
        Secret {
            meta,
            kind_text: text(alloc, "Opaque")?,
            parts: Parts::new(alloc),
        },
    )?)
}

/// The version of the Secret that exists; 0 where none does.
fn version(alloc: Global, collection: &Collection, word: &str) -> Result<u64, Fail> {
    let key = key(alloc, Kind::Secret, word)?;
    match collection.store().peek(&key) {
        Some(object) => Ok(object.meta().version),
        None => Ok(0),
    }
}

fn apply(alloc: Global, collection: &Collection, word: &str) -> Result<Call, Fail> {
    let version = version(alloc, collection, word.get(0..1).unwrap_or("x"))?;
    let object = secret(alloc, word)?;
    if version == 0 {
        return Ok(Call::Create {
            object,
            generate: false,
        });
    }
    Ok(Call::Update { object, version })
}

fn move_of(alloc: Global, collection: &Collection, step: &str) -> Result<CollectMove, Fail> {
    let word = rest(step);
    match step.get(0..1).unwrap_or("") {
        "+" => Ok(CollectMove::User(apply(alloc, collection, word)?)),
        "-" => Ok(CollectMove::User(Call::Delete {
            key: key(alloc, Kind::Secret, word)?,
            version: None,
        })),
        "S" => Ok(CollectMove::Deliver {
            kind: Kind::Secret,
            to: number(word),
        }),
        "C" => Ok(CollectMove::Deliver {
            kind: Kind::Certificate,
            to: number(word),
        }),
        _ => Ok(CollectMove::Examine {
            key: key(alloc, Kind::Secret, word)?,
        }),
    }
}

fn answered(alloc: Global, answer: Collected) -> Result<String, Fail> {
    match answer {
        Collected::Done => Ok(format!(in alloc; "")?),
        Collected::NotNow(CollectLack::Current { position }) => {
            Ok(format!(in alloc; " (current {position})")?)
        }
        Collected::NotNow(CollectLack::NotAWrite { to }) => {
            Ok(format!(in alloc; " (no write {to})")?)
        }
        Collected::NotNow(CollectLack::NoOrphan) => Ok(format!(in alloc; " (no orphan)")?),
        Collected::Spent { entries } => Ok(format!(in alloc; " (spent {entries})")?),
    }
}

fn replied(alloc: Global, reply: &Reply) -> Result<String, Fail> {
    match reply {
        Reply::Ok { version, .. } => Ok(format!(in alloc; "ok{version}")?),
        Reply::Unchanged { version } => Ok(format!(in alloc; "unchanged{version}")?),
        Reply::Found { object } => {
            let version = object.meta().version;
            Ok(format!(in alloc; "found{version}")?)
        }
        Reply::Conflict { have, .. } => Ok(format!(in alloc; "conflict{have}")?),
        Reply::NotFound { at } => Ok(format!(in alloc; "none{at}")?),
        Reply::Unavailable { number } => Ok(format!(in alloc; "unavailable{number}")?),
        _ => Ok(format!(in alloc; "another")?),
    }
}

fn kind_letter(kind: Kind) -> &'static str {
    match kind {
        Kind::Certificate => "C",
        Kind::CertificateRequest => "R",
        Kind::Secret => "S",
    }
}

fn told(alloc: Global, entry: &CollectEntry) -> Result<String, Fail> {
    match entry {
        CollectEntry::User { reply, .. } => {
            let reply = replied(alloc, reply)?;
            Ok(format!(in alloc; " u:{reply}")?)
        }
        CollectEntry::Deliver { kind, to } => {
            let kind = kind_letter(*kind);
            Ok(format!(in alloc; " {kind}{to}")?)
        }
        CollectEntry::List { kind, to } => {
            let kind = kind_letter(*kind);
            Ok(format!(in alloc; " {kind}={to}")?)
        }
        CollectEntry::Look { key, owner, reply } => {
            let key = key.name.as_str();
            let owner = owner.name.as_str();
            let reply = replied(alloc, reply)?;
            Ok(format!(in alloc; " {key}?{owner}:{reply}")?)
        }
        CollectEntry::Delete {
            key,
            version,
            reply,
        } => {
            let key = key.name.as_str();
            let reply = replied(alloc, reply)?;
            Ok(format!(in alloc; " {key}-{version}:{reply}")?)
        }
    }
}

/// The entries from this number on.
fn entries_from(alloc: Global, collection: &Collection, from: usize) -> Result<String, Fail> {
    let mut texts = String::new(alloc);
    for moment in collection.entries().as_slice().iter().skip(from) {
        let entry = told(alloc, &moment.entry)?;
        texts.push_str(entry.as_str())?;
    }
    Ok(texts)
}

fn made(alloc: Global, collection: &mut Collection, step: &str) -> Result<String, Fail> {
    let from = collection.entries().as_slice().len();
    let answer = if step == "!" {
        collection.settle(alloc, 5)?
    } else {
        let step = move_of(alloc, collection, step)?;
        collection.step(alloc, 5, step)?
    };
    let mut texts = entries_from(alloc, collection, from)?;
    let answer = answered(alloc, answer)?;
    texts.push_str(answer.as_str())?;
    Ok(texts)
}

fn made_all(alloc: Global, row: &Row) -> Result<String, Fail> {
    let mut faults = Numbers::new(alloc);
    if row.fault > 0 {
        faults.push(row.fault)?;
    }
    let mut collection = Collection::new(alloc, row.window, faults, row.events);
    let mut texts = String::new(alloc);
    for step in row.steps.split(' ') {
        let text = made(alloc, &mut collection, step)?;
        texts.push_str(text.as_str())?;
    }
    Ok(texts)
}

#[test]
fn collects_move_by_move(rt: HostRuntime) -> Result<(), Fail> {
    for row in &ROWS {
        let told = made_all(rt.alloc(), row)?;
        tells(&rt, row.name, rest(told.as_str()), row.told);
    }
    Ok(())
}
