// Which files the names of a job mean: 28 where one is no file that a job can use, or two are one file. Nothing is opened.
use files::{Seen, Told, or_tell};
use job_step::File;
use refusal::Refusal;
use std::io::ErrorKind;

// A file's name, and what was found there.
#[derive(Clone, Copy)]
pub(crate) struct Named<'a> {
    pub name: &'a [u8],
    pub seen: Seen,
}

// The files of a job; `aside` is STATE.new.
#[derive(Clone, Copy)]
pub(crate) struct Names<'a> {
    pub tables: Named<'a>,
    pub call: Named<'a>,
    pub state: Named<'a>,
    pub out: Named<'a>,
    pub aside: Named<'a>,
}

// Looks at a file that is there or is missing; where neither can be told, the system's reason is said.
pub(crate) fn look<'a>(rt: &HostRuntime, name: &'a [u8]) -> Result<Named<'a>, Told> {
    let seen = files::look(rt, name);
    match seen {
        Err(why) if why.kind() != ErrorKind::NotFound => {
            files::fail(rt, name, why);
            Err(Told)
        }
        _ => Ok(Named { name, seen }),
    }
}

fn refuse(rt: &HostRuntime, name: &[u8], what: &[u8]) -> Result<(), Told> {
    Err(files::refuse(rt, Refusal::Names.number(), name, what))
}

impl Named<'_> {
    fn is_there(self) -> bool {
        self.seen.is_ok()
    }

    // Whether it is missing or a regular file.
    fn is_plain(self) -> bool {
        match self.seen {
            Ok(known) => known.regular,
            Err(_) => true,
        }
    }
}

impl Names<'_> {
    // CALL, STATE and OUT are files, as far as they are there.
    fn files(self, rt: &HostRuntime) -> Result<(), Told> {
        if !self.call.is_plain() {
            return refuse(
                rt,
                self.call.name,
                b"a job reads its call again at any place, so it has to be a file; `decode` reads pipes",
            );
        }
        if !self.state.is_plain() {
            return refuse(rt, self.state.name, b"not a file: name a file as STATE");
        }
        if !self.out.is_plain() {
            return refuse(rt, self.out.name, b"not a file: name a file as OUT");
        }
        Ok(())
    }

    // STATE and OUT are no links that a job can't follow: a new state would take the link's place, and OUT can't be made where a link leads nowhere.
    fn no_links(self, rt: &HostRuntime) -> Result<(), Told> {
        if files::is_link(rt, self.state.name) {
            return refuse(
                rt,
                self.state.name,
                b"a link, whose place the next state would take: name the file that it leads to as STATE",
            );
        }
        if !self.out.is_there() && files::is_link(rt, self.out.name) {
            return refuse(
                rt,
                self.out.name,
                b"a link that leads nowhere: name a file as OUT",
            );
        }
        Ok(())
    }

    // The files that are there are different ones.
    fn apart(self, rt: &HostRuntime) -> Result<(), Told> {
        let t = file(self.tables.seen);
        let c = file(self.call.seen);
        let s = file(self.state.seen);
        let o = file(self.out.seen);
        let a = file(self.aside.seen);
        if !job_step::apart(t, c, MISSING, MISSING, MISSING) {
            return refuse(
                rt,
                self.call.name,
                b"this is the table file: name the call as CALL",
            );
        }
        if !job_step::apart(MISSING, MISSING, s, MISSING, a) {
            return refuse(
                rt,
                self.state.name,
                b"this and the file with `.new` behind its name are one file: move the other name away",
            );
        }
        if !job_step::apart(t, c, s, MISSING, a) {
            return refuse(
                rt,
                self.state.name,
                b"this, or the file with `.new` behind its name, is CALL or the table file: name another STATE",
            );
        }
        if !job_step::apart(t, c, s, o, a) {
            return refuse(
                rt,
                self.out.name,
                b"this is CALL, STATE, STATE.new or the table file, and would be written over: name another OUT",
            );
        }
        Ok(())
    }

    // OUT is there or can be made: it has a folder. The reason is that of the look at it.
    fn folder(self, rt: &HostRuntime) -> Result<(), Told> {
        let name = self.out.name;
        let k = job::names::folder(name);
        let folder = look_folder(rt, &name[..k]);
        if !self.out.is_there() {
            or_tell(rt, name, folder)?;
        }
        Ok(())
    }

    // A job can use the files of these names.
    pub(crate) fn usable(self, rt: &HostRuntime) -> Result<(), Told> {
        let state = self.state.name;
        let out = self.out.name;
        self.files(rt)?;
        // That under which another job's next state is written.
        if state.ends_with(b".new") {
            return refuse(
                rt,
                state,
                b"a name that ends in .new is that of another job's next state: name another STATE",
            );
        }
        self.no_links(rt)?;
        self.apart(rt)?;
        if one_place(rt, out, state) | one_place(rt, out, self.aside.name) {
            return refuse(
                rt,
                out,
                b"STATE or STATE.new would be written there: name another OUT",
            );
        }
        self.folder(rt)
    }
}

const MISSING: File = File {
    there: false,
    device: 0,
    inode: 0,
};

fn file(seen: Seen) -> File {
    match seen {
        Ok(known) => File {
            there: true,
            device: known.device,
            inode: known.inode,
        },
        Err(_) => MISSING,
    }
}

// The folder of this name; that in which the program runs where the name is empty.
fn look_folder(rt: &HostRuntime, name: &[u8]) -> Seen {
    files::look(rt, if name.is_empty() { b"." } else { name })
}

// Whether two names mean one place of one folder. So two files that are not there yet are seen to be one.
fn one_place(rt: &HostRuntime, a: &[u8], b: &[u8]) -> bool {
    let n = job::names::folder(a);
    let m = job::names::folder(b);
    if &a[n..] != &b[m..] {
        return false;
    }
    let first = file(look_folder(rt, &a[..n]));
    let second = file(look_folder(rt, &b[..m]));
    !job_step::apart(first, second, MISSING, MISSING, MISSING)
}
