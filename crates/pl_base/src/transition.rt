ghost use Rattle.std.specs.Prelude.{◌≡◌};
ghost use Rattle.pl_base.specs.Marks as marks;
ghost use Rattle.pl_base.specs.Redirects as redirects;
ghost use Rattle.pl_base.specs.Transition.{transition_number, transition_at};

/// How a visit came about, by the numbers of `nsINavHistoryService`.
#[derive(Clone, Copy, Debug, PartialEq, Eq, Hash)]
pub enum Transition {
    Link = 1,
    Typed = 2,
    Bookmark = 3,
    Embed = 4,
    RedirectPermanent = 5,
    RedirectTemporary = 6,
    Download = 7,
    FramedLink = 8,
    Reload = 9,
}

impl Transition {
    /// The transition with this number.
    pub fn from_number(number: u64) -> Option<Self>
        ensures { result ≡ transition_at number }
    {
        match number {
            1 => Some(Transition::Link),
            2 => Some(Transition::Typed),
            3 => Some(Transition::Bookmark),
            4 => Some(Transition::Embed),
            5 => Some(Transition::RedirectPermanent),
            6 => Some(Transition::RedirectTemporary),
            7 => Some(Transition::Download),
            8 => Some(Transition::FramedLink),
            9 => Some(Transition::Reload),
            _ => None,
        }
    }

    pub fn number(self) -> u8
        ensures { result ≡ transition_number self }
    {
        self as u8
    }

    /// Whether its visits count towards the `visit_count` of their page.
    pub fn is_counted(self) -> bool
        ensures { result ≡ marks.is_counted self }
    {
        !matches!(
            self,
            Transition::Embed | Transition::Download | Transition::FramedLink | Transition::Reload
        )
    }

    /// Whether its visits are within a frame.
    pub fn is_framed(self) -> bool
        ensures { result ≡ marks.is_framed self }
    {
        matches!(self, Transition::Embed | Transition::FramedLink)
    }

    /// Whether a redirect made its visits.
    pub fn is_redirect(self) -> bool
        ensures { result ≡ redirects.is_redirect self }
    {
        matches!(
            self,
            Transition::RedirectPermanent | Transition::RedirectTemporary
        )
    }
}
