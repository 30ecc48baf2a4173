// Moments at a link that a standby passes, where no reply is told without it.
ghost use Rattle.std.specs.Prelude.{◌≡◌, None, true, IfSome};
ghost use Rattle.hose_clerk.specs.steps.Linking.{ClearsBy, IsPassed, MarksBy, PassesAt};

/// A moment at a link to a standby. The standby has passed it once it is heard to have each entry
/// that stood then, and answered a packet that was handed out later.
#[derive(Clone, Copy)]
pub struct Mark {
    /// So many lines were answered.
    pub lines: u64,
    /// So many entries stood.
    pub entries: u64,
    /// So many packets were handed out at the link.
    pub packets: u64,
}

impl Mark {
    // Whether a standby has passed it that answered so many packets, and is heard to have so many
    // entries.
    fn is_passed(&self, answered: u64, heard: Option<u64>) -> bool
        ensures { result ≡ true → IsPassed self.now answered heard }
    {
        let Some(count) = heard else {
            return false;
        };
        if count < self.entries {
            return false;
        }
        self.packets < answered
    }
}

/// The moments at the link that is open, and what is news of its standby.
#[derive(Drop)]
pub struct Fence {
    /// The one that the standby is to pass next.
    pub mark: Option<Mark>,
    /// The last one that it passed, which stands for all before it.
    pub passed: Option<Mark>,
    /// The most entries that a standby was heard to have, at any link.
    pub most: u64,
    /// What was heard last is news.
    pub is_news: bool,
}

impl Fence {
    /// That of a host at which nothing was heard of a standby.
    pub fn new() -> Fence
        ensures mark { result.mark ≡ None }
        ensures passed { result.passed ≡ None }
    {
        Fence {
            mark: None,
            passed: None,
            most: 0,
            is_news: false,
        }
    }

    /// Goes on at another link.
    pub fn open(&mut self)
        ensures mark { self.new.mark ≡ None }
        ensures passed { self.new.passed ≡ None }
    {
        self.mark = None;
        self.passed = None;
        self.is_news = false;
    }

    /// Sets the moment that is to be passed next, where none is and where lines were answered since
    /// the last one, and says whether it did.
    pub fn set(&mut self, mark: Mark) -> bool
        ensures { MarksBy mark self.old self.new }
    {
        if self.mark.is_some() {
            return false;
        }
        if mark.lines <= self.lines() {
            return false;
        }
        self.mark = Some(mark);
        true
    }

    // How many lines were answered at the last moment that was passed.
    fn lines(&self) -> u64 {
        match self.passed {
            Some(mark) => mark.lines,
            None => 0,
        }
    }

    /// Takes in what is heard: how many packets the standby answered, how many entries it has, and
    /// how many there are.
    pub fn hear(&mut self, answered: u64, heard: Option<u64>, entries: u64)
        ensures { ClearsBy self.old self.new }
    {
        self.note(heard, entries);
        let Some(mark) = self.mark else {
            return;
        };
        if !mark.is_passed(answered, heard) {
            return;
        }
        self.mark = None;
        self.passed = Some(mark);
    }

    // Notes whether it is news that the standby has so many entries, of so many.
    fn note(&mut self, heard: Option<u64>, entries: u64)
        ensures mark { self.new.mark ≡ self.old.mark }
        ensures passed { self.new.passed ≡ self.old.passed }
    {
        self.is_news = false;
        let Some(count) = heard else {
            return;
        };
        self.is_news = self.most < count || entries <= count;
        if self.most < count {
            self.most = count;
        }
    }

    /// How many lines were answered at the last moment that the standby has passed, where it
    /// answered so many packets and is heard to have so many entries.
    pub fn lines_passed(&self, answered: u64, heard: Option<u64>) -> Option<u64>
        ensures { IfSome result (PassesAt self.now answered heard) }
    {
        let Some(mark) = self.passed else {
            return None;
        };
        if !mark.is_passed(answered, heard) {
            return None;
        }
        Some(mark.lines)
    }
}

/// Sets a moment that is to be passed, where the standby is required, and says whether it did.
pub fn set_if(fence: &mut Fence, is_required: bool, mark: Mark) -> bool
    ensures { MarksBy mark fence.old fence.new }
{
    if !is_required {
        return false;
    }
    fence.set(mark)
}
