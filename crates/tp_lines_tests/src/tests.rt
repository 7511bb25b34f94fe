//! Lines, worked out by hand: what each says, or its first fault.
use std::alloc::{AllocError, AllocGlobal, Global};
use std::process::Abort;
use std::string::String;
use tp_lines::{Act, Command, Line, read_line};
use tp_model::types::Body;
use tp_script::LineError;
use tp_server::Order;

/// What a server or a worker does.
fn done(alloc: Global, name: &str, act: &Act) -> Result<String, AllocError> {
    match act {
        Act::Claim => format!(in alloc; "{name} claims"),
        Act::Next => format!(in alloc; "{name} takes the next"),
        Act::Take { id } => format!(in alloc; "{name} takes {id}"),
        Act::Turn => format!(in alloc; "{name} turns"),
        Act::Prepare => format!(in alloc; "{name} prepares"),
        Act::Commit { drafts } => {
            let count = drafts.len();
            let mut last = [0, 0, 0, 0, 0];
            for draft in drafts.as_slice() {
                let body = draft.body();
                last = [u64::from(draft.stage()), body[0], body[1], body[2], body[3]];
            }
            let [stage, key, amount, two, three] = last;
            format!(in alloc;
                "{name} commits {count}, at last {stage} {key} {amount} {two} {three}"
            )
        }
        Act::Abort => format!(in alloc; "{name} aborts"),
        Act::Drop => format!(in alloc; "{name} drops"),
    }
}

/// A request of nobody, or of a client.
fn request(
    alloc: Global,
    who: &str,
    number: u64,
    stage: u16,
    body: &Body,
) -> Result<String, AllocError> {
    let [key, amount, two, three] = *body;
    format!(in alloc; "{who} sends {number}: {stage} {key} {amount} {two} {three}")
}

/// What a client does, in an epoch where it names one.
fn in_epoch(alloc: Global, text: &str, epoch: Option<u64>) -> Result<String, AllocError> {
    match epoch {
        Some(epoch) => format!(in alloc; "{text}, in epoch {epoch}"),
        None => format!(in alloc; "{text}"),
    }
}

/// What a command asks for.
fn asked(alloc: Global, command: &Command) -> Result<String, AllocError> {
    match command {
        Command::Submit { stage, body } => request(alloc, "nobody", 0, *stage, body),
        Command::Kill { id } => format!(in alloc; "kill of {id}"),
        Command::Cancel { root } => format!(in alloc; "cancel of {root}"),
        Command::Requeue { id } => format!(in alloc; "requeue of {id}"),
        Command::Release { id } => format!(in alloc; "release of {id}"),
        Command::Read { id } => format!(in alloc; "read of {id}"),
        Command::Reply { root } => format!(in alloc; "reply of {root}"),
        Command::Collect { root } => format!(in alloc; "collect of {root}"),
        Command::Family { root } => format!(in alloc; "family of {root}"),
        Command::Errors => format!(in alloc; "all errors"),
        Command::Count => format!(in alloc; "all counts"),
        Command::Depth => format!(in alloc; "all depths"),
        Command::List { stage, from } => format!(in alloc; "list of {stage} from {from}"),
        Command::Account => format!(in alloc; "the account"),
        Command::Holds => format!(in alloc; "all holds"),
        Command::Dump => format!(in alloc; "a dump"),
        Command::Restore => format!(in alloc; "a restore"),
        Command::Drain(Order::LeastFirst) => format!(in alloc; "a drain"),
        Command::Drain(Order::InTurn) => format!(in alloc; "a drain in turn"),
        Command::Sum { k } => format!(in alloc; "sum of {k}"),
        Command::Balance { name, k } => {
            let name = name.as_str();
            format!(in alloc; "balance of {name} at {k}")
        }
        Command::Act { name, act } => done(alloc, name.as_str(), act),
        Command::Fenced { name, fence, act } => {
            let text = done(alloc, name.as_str(), act)?;
            let (id, tries) = (fence.id, fence.tries);
            format!(in alloc; "{text}, of {id} in try {tries}")
        }
        Command::Leave { name } => {
            let name = name.as_str();
            format!(in alloc; "{name} leaves")
        }
        Command::Send {
            name,
            epoch,
            number,
            stage,
            body,
        } => {
            let text = request(alloc, name.as_str(), *number, *stage, body)?;
            in_epoch(alloc, text.as_str(), *epoch)
        }
        Command::Receive {
            name,
            epoch,
            number,
            root,
            note,
        } => {
            let name = name.as_str();
            let note = match note {
                Some(note) => note.as_str(),
                None => "no note",
            };
            let text = match root {
                Some(root) => format!(in alloc; "{name} receives {number} of {root}, {note}")?,
                None => format!(in alloc; "{name} receives {number}, {note}")?,
            };
            in_epoch(alloc, text.as_str(), *epoch)
        }
        Command::Last { name } => {
            let name = name.as_str();
            format!(in alloc; "last of {name}")
        }
        Command::Forget { name } => {
            let name = name.as_str();
            format!(in alloc; "{name} is forgotten")
        }
    }
}

/// What a line says, as a text; or its fault.
fn said(alloc: Global, line: &[u8]) -> Result<String, AllocError> {
    match read_line(alloc, line) {
        Ok(Line::Nothing) => format!(in alloc; "nothing"),
        Ok(Line::Head(head)) => format!(in alloc; "{head}"),
        Ok(Line::Do(command)) => asked(alloc, &command),
        Ok(Line::Version) => format!(in alloc; "the version"),
        Err(LineError::Fault(fault)) => format!(in alloc; "{fault}"),
        Err(LineError::NoMemory) => Err(AllocError),
    }
}

/// Each line says what stands beside it.
fn say<R: AllocGlobal + Abort>(rt: &R, table: &[(&str, &str)]) {
    for row in table {
        match said(rt.alloc(), row.0.as_bytes()) {
            Ok(text) => assert_eq!(rt; text.as_str(), row.1),
            Err(_) => assert!(rt; false),
        }
    }
}

#[test]
fn heads(rt: HostRuntime) {
    say(
        &rt,
        &[
            ("", "nothing"),
            ("   ", "nothing"),
            ("# limit 9", "nothing"),
            ("  limit   7 ", "limit 7"),
            ("max 18446744073709551615", "max 18446744073709551615"),
            ("keep 1", "keep 1"),
            (
                "server Till-1.a eager 1 2 add",
                "server Till-1.a eager 1 2 add",
            ),
            (
                "server t lazy 14 64 take:1 15:same:after 3:7:0 2:same:same 1:0:9",
                "server t lazy 14 64 take 15:same:after 3:7:0 2:same:same 1:0:9",
            ),
            ("server t eager 1 2 pass:3", "server t eager 1 2 pass:3"),
            ("start t 1 007", "start t 1 7"),
            ("worker w_2 999", "worker w_2 999"),
            (
                "register abcdefghijklmnopqrstuvwxyz012345",
                "register abcdefghijklmnopqrstuvwxyz012345",
            ),
            ("numbers 9 8 7", "numbers 9 8 7"),
            (
                "element 5 65535:1:2:3:4 5 client nobody 0 waiting 255",
                "element 5 65535:1:2:3:4 5 client nobody 0 waiting 255",
            ),
            (
                "element 6 15:1:2:3:4 5 0 3 255 held 9 1",
                "element 6 15:1:2:3:4 5 0 3 255 held 9 1",
            ),
            (
                "element 6 0:1:2:3:4 5 0 3 1 consumed 9",
                "element 6 0:1:2:3:4 5 0 3 1 consumed 9",
            ),
            (
                "element 6 1:1:2:3:4 5 0 3 1 parked 2",
                "element 6 1:1:2:3:4 5 0 3 1 parked 2",
            ),
            (
                "element 6 1:1:2:3:4 5 0 3 1 killed",
                "element 6 1:1:2:3:4 5 0 3 1 killed",
            ),
            ("over 12", "over 12"),
            ("settled 15 3 4", "settled 15 3 4"),
            ("hand w 5 6", "hand w 5 6 0"),
            ("hand w 5 6 65535", "hand w 5 6 65535"),
            ("prepared t", "prepared t"),
            ("dropped t", "dropped t"),
            ("from w 8", "from w 8"),
            ("ended w done 1 2 3 4", "ended w done 1 2 3 4"),
            ("ended w aborted 5", "ended w aborted 5"),
            ("ended w lost 5", "ended w lost 5"),
            (
                "client anna 1 2 3 4 5 6 7:8:9:10",
                "client anna 1 2 3 4 5 6 7:8:9:10 1 0:0:0:0:0 -",
            ),
            (
                "client anna 1 2 3 4 5 6 7:8:9:10 11 12:13:14:15:16 page.17",
                "client anna 1 2 3 4 5 6 7:8:9:10 11 12:13:14:15:16 page.17",
            ),
            ("register anna new", "register anna new"),
            (
                "element 6 1:1:2:3:4 5 0 3 1:7 parked 2",
                "element 6 1:1:2:3:4 5 0 3 1:7 parked 2",
            ),
            (
                "element 6 1:1:2:3:4 5 0 3 1:0 parked 2",
                "element 6 1:1:2:3:4 5 0 3 1 parked 2",
            ),
        ],
    );
}

#[test]
fn commands(rt: HostRuntime) {
    say(
        &rt,
        &[
            ("submit 65535 1 2", "nobody sends 0: 65535 1 2 0 0"),
            ("submit 0 1 2 3", "nobody sends 0: 0 1 2 3 0"),
            ("submit 1 1 2 3 4", "nobody sends 0: 1 1 2 3 4"),
            ("kill 1", "kill of 1"),
            ("cancel 2", "cancel of 2"),
            ("requeue 3", "requeue of 3"),
            ("release 4", "release of 4"),
            ("read 5", "read of 5"),
            ("reply 6", "reply of 6"),
            ("collect 7", "collect of 7"),
            ("family 8", "family of 8"),
            ("errors", "all errors"),
            ("count", "all counts"),
            ("depth", "all depths"),
            ("list 999", "list of 999 from 0"),
            ("list 1 8", "list of 1 from 8"),
            ("account", "the account"),
            ("holds", "all holds"),
            ("dump", "a dump"),
            ("restore", "a restore"),
            ("drain", "a drain"),
            ("drain next", "a drain in turn"),
            ("sum 3", "sum of 3"),
            ("balance t 3", "balance of t at 3"),
            ("claim w", "w claims"),
            ("next w", "w takes the next"),
            ("take w 5", "w takes 5"),
            ("turn t", "t turns"),
            ("prepare t", "t prepares"),
            ("commit t", "t commits 0, at last 0 0 0 0 0"),
            ("commit w 999:5:6", "w commits 1, at last 999 5 6 0 0"),
            (
                "commit w 1:1:1 2:2:2 3:3:3 15:6:7:8:9",
                "w commits 4, at last 15 6 7 8 9",
            ),
            ("abort w", "w aborts"),
            ("drop t", "t drops"),
            ("leave w", "w leaves"),
            (
                "commit w =7:3",
                "w commits 0, at last 0 0 0 0 0, of 7 in try 3",
            ),
            (
                "commit w =7:3 1:1:1 15:6:7",
                "w commits 2, at last 15 6 7 0 0, of 7 in try 3",
            ),
            ("abort w =0:65535", "w aborts, of 0 in try 65535"),
            ("send anna 1 2 3 4 5", "anna sends 1: 2 3 4 5 0"),
            (
                "send anna/9 1 2 3 4 5",
                "anna sends 1: 2 3 4 5 0, in epoch 9",
            ),
            ("receive anna 1", "anna receives 1, no note"),
            ("receive anna 2 0", "anna receives 2 of 0, no note"),
            (
                "receive anna/8 2 note p.7",
                "anna receives 2, p.7, in epoch 8",
            ),
            ("receive anna 2 0 note p-7", "anna receives 2 of 0, p-7"),
            ("version", "the version"),
            ("last anna", "last of anna"),
            ("forget anna", "anna is forgotten"),
        ],
    );
}

#[test]
fn faults(rt: HostRuntime) {
    say(
        &rt,
        &[
            ("nowhere 1", "1 Syntax"),
            ("limit\t7", "1 Syntax"),
            ("limit", "1 Syntax"),
            ("limit 7 7", "1 Syntax"),
            ("limit x", "2 BadNumber"),
            ("limit 0", "3 BadLimits"),
            ("limit 8", "3 BadLimits"),
            ("keep 0", "3 BadLimits"),
            ("max 18446744073709551616", "2 BadNumber"),
            ("over 000000000000000000001", "2 BadNumber"),
            ("server 1 swift x 2 add", "1 Syntax"),
            ("server 1 eager x 2 add:4", "1 Syntax"),
            ("server 1 eager x 2 add 15:same", "1 Syntax"),
            (
                "server 1 eager x 2 add 1:0:0 1:0:0 1:0:0 1:0:0 1:0:0",
                "1 Syntax",
            ),
            ("server 1 eager x 2 add", "5 BadName"),
            ("server t eager 256 2 add", "2 BadNumber"),
            ("server t eager 15 2 add", "4 BadRecipe"),
            ("worker w 0", "2 BadNumber"),
            ("worker w 15", "2 BadNumber"),
            ("worker w 1000", "2 BadNumber"),
            ("worker -w 15", "5 BadName"),
            ("register abcdefghijklmnopqrstuvwxyz0123456", "5 BadName"),
            ("register a/b", "5 BadName"),
            ("element x 1:1:2:3 5 0 3 1 killed", "1 Syntax"),
            ("element x 1:1:2:3:4 5 0 3 1 killed 1", "1 Syntax"),
            ("element x 1:1:2:3:4 5 0 3 1 asleep", "1 Syntax"),
            ("element 6 65536:1:2:3:4 5 0 3 1 killed", "2 BadNumber"),
            ("element 6 1:1:2:3:4 5 nobody 3 1 killed", "2 BadNumber"),
            ("element 6 1:1:2:3:4 5 0 client 1 killed", "2 BadNumber"),
            ("element 6 1:1:2:3:4 5 0 3 256 killed", "2 BadNumber"),
            ("element 6 1:1:2:3:4 5 0 3 1 waiting 256", "2 BadNumber"),
            ("ended 1 done 1 2 3", "1 Syntax"),
            ("ended 1 full 1", "1 Syntax"),
            ("ended 1 lost x", "5 BadName"),
            ("ended w lost x", "2 BadNumber"),
            ("client 1 1 2 3 4 5 6 7:8:9", "1 Syntax"),
            ("client 1 x 2 3 4 5 6 7:8:9:10", "5 BadName"),
            ("client a 1 2 3 4 5 6 7:8:9:", "2 BadNumber"),
            ("submit 65536 1 2", "2 BadNumber"),
            ("submit 1 1 2 3 4 5", "1 Syntax"),
            ("list 0", "2 BadNumber"),
            ("list 1000", "2 BadNumber"),
            ("drain all", "1 Syntax"),
            ("errors 1", "1 Syntax"),
            ("take 1 x", "5 BadName"),
            ("take w -1", "2 BadNumber"),
            ("commit 1 1:1:1 1:1:1 1:1:1 1:1:1 1:1:1", "1 Syntax"),
            ("commit 1 0:1", "1 Syntax"),
            ("commit 1 0:1:1", "5 BadName"),
            ("commit w 0:1:1", "2 BadNumber"),
            ("commit w 1000:1:1", "2 BadNumber"),
            ("send anna 0 1 1 1", "2 BadNumber"),
            ("receive anna 0", "2 BadNumber"),
            ("receive anna 1 2 3", "1 Syntax"),
            ("receive anna 1 2 note 3", "5 BadName"),
            ("receive anna/ 1 2", "2 BadNumber"),
            ("receive anna/1/2 1 2", "1 Syntax"),
            ("commit w =1", "1 Syntax"),
            ("commit w =1:65536", "2 BadNumber"),
            ("abort w 1:1", "1 Syntax"),
            ("abort w =1:1 2", "1 Syntax"),
            ("register anna old", "1 Syntax"),
            ("hand w 5 6 65536", "2 BadNumber"),
            ("element x 1:1:2:3:4 5 0 3 1:2:3 killed", "1 Syntax"),
            ("element 6 1:1:2:3:4 5 0 3 1:256 killed", "2 BadNumber"),
            ("client a 1 2 3 4 5 6 7:8:9:10 11", "1 Syntax"),
            (
                "client a 1 2 3 4 5 6 7:8:9:10 11 12:13:14:15:16 -x",
                "5 BadName",
            ),
            ("version 2", "1 Syntax"),
            ("@1 count", "1 Syntax"),
        ],
    );
}

#[test]
fn long_lines(rt: HostRuntime) {
    match said(rt.alloc(), &[b'#'; 1_023]) {
        Ok(text) => assert!(rt; text.as_str() == "nothing"),
        Err(_) => assert!(rt; false),
    }
    match said(rt.alloc(), &[b'#'; 1_024]) {
        Ok(text) => assert!(rt; text.as_str() == "6 TooLong"),
        Err(_) => assert!(rt; false),
    }
}
