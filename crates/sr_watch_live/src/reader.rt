//! The thread of a LAN.

use crate::message::{End, Message, Taken, Then};
use crate::outlet::{Outlet, Takers};
use crate::plan::LanPlan;
use sr_capture::{CaptureFault, Reason};
use sr_intake::{Intake, kind_of, mirrored};
use sr_prp_trailer::Lan;
use std::fs::{self, File};
use std::io::{BufReader, Read};
use std::os::unix::fs::FileTypeExt;
use std::rt::Files;
use std::sync::Wait;

/// What a capture is read through.
type Stream<F, R> = BufReader<Outlet<F, R>>;

/// That a capture can't be read on, before anything of it was.
fn broken(reason: Reason) -> End {
    End::Broken(CaptureFault { at: 0, reason })
}

/// The last packet that was taken.
fn taken_of<F: Read + Drop, R: Wait + Drop>(intake: &Intake<Stream<F, R>>, plan: LanPlan) -> Taken {
    let packet = intake.packet();
    let (lan, kind) = match plan.lan {
        Some(lan) => (lan, kind_of(plan.network, lan, packet)),
        None => mirrored(plan.network, kind_of(plan.network, Lan::A, packet)),
    };
    Taken {
        time: packet.time.saturating_add(plan.delay),
        lan,
        kind,
    }
}

/// Takes all packets of a capture, and hands them over.
fn take_all<F: Read + Drop, R: Wait + Drop>(
    intake: &mut Intake<Stream<F, R>>,
    plan: LanPlan,
) -> End {
    for _ in 0..u64::MAX {
        match intake.advance() {
            Ok(true) => {}
            Ok(false) => return End::Whole,
            Err(fault) => return End::Broken(fault),
        }
        let taken = taken_of(intake, plan);
        match intake.reader().get_mut().push(taken) {
            Ok(()) => {}
            Err(_) => return broken(Reason::NoMemory),
        }
    }
    End::Whole
}

/// Reads a capture that was opened, to its end.
fn read_opened<F: Read + Drop, R: AllocGlobal + Wait + Copy + Drop>(
    rt: R,
    file: F,
    plan: LanPlan,
    to: &Takers,
) -> End {
    let Ok(own) = to.try_clone() else {
        return broken(Reason::NoMemory);
    };
    let outlet = Outlet::new(rt, rt.alloc(), file, own);
    let Ok(stream) = BufReader::new(rt.alloc(), outlet) else {
        return broken(Reason::NoMemory);
    };
    let mut intake = match Intake::open(rt.alloc(), stream, plan.reading) {
        Ok(intake) => intake,
        Err(fault) => return End::Broken(fault),
    };
    match to.send(&rt, Message::Begun, Message::Begun) {
        Ok(()) => {}
        Err(_) => return broken(Reason::NoMemory),
    }
    let end = take_all(&mut intake, plan);
    intake.reader().get_mut().hand_over();
    end
}

/// What comes by a path whose capture ended. One that is no FIFO by its own name, as a file or a pipe of the shell, has no other writer;
/// of one that is not there any more its opening tells.
fn behind_end<R: Files>(rt: &R, path: &str, plan: LanPlan) -> Then {
    if !plan.reopens {
        return Then::Nothing;
    }
    match fs::symlink_metadata(rt, path) {
        Ok(metadata) if !metadata.file_type().is_fifo() => Then::Nothing,
        _ => Then::Another,
    }
}

/// Opens a capture, which may wait until it has a writer, and hands over what it has, up to its end. The answer is what comes behind it.
fn read_once<R: AllocGlobal + Files + Wait + Copy + Drop>(
    rt: R,
    path: &str,
    plan: LanPlan,
    to: &Takers,
) -> Then {
    let (end, then) = match File::open(&rt, path) {
        Ok(file) => {
            let end = read_opened(rt, file, plan, to);
            (end, behind_end(&rt, path, plan))
        }
        Err(error) => (End::Unopened(error.kind()), Then::Nothing),
    };
    // A fault of a mirror port is told once.
    let others = Message::Ended(End::Whole, then);
    match to.send(&rt, Message::Ended(end, then), others) {
        Ok(()) => then,
        Err(_) => Then::Nothing,
    }
}

/// Reads the captures of a LAN, one behind the other, until nothing more comes.
pub(crate) fn read_lan<R: AllocGlobal + Files + Wait + Copy + Drop>(
    rt: R,
    path: String,
    plan: LanPlan,
    to: Takers,
) {
    for _ in rt.forever() {
        if read_once(rt, path.as_str(), plan, &to) == Then::Nothing {
            break;
        }
    }
}
