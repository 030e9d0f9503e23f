//! Which options a command needs, and which it may have.

ghost use Rattle.std.specs.Prelude.{◌≡◌, codes, option_map};
ghost use Rattle.enhsp_words.specs.Options.{command_of, fits, presence_of};

use crate::job::Command;

/// Whether a command takes an option.
#[derive(Clone, Copy, Debug, PartialEq, Eq)]
pub(crate) enum Presence {
    Needed,
    Allowed,
    Refused,
}

/// What a command takes, option by option.
#[derive(Clone, Copy, Debug)]
pub(crate) struct Options {
    pub(crate) domain: Presence,
    pub(crate) problem: Presence,
    pub(crate) plan: Presence,
    pub(crate) certificate: Presence,
    pub(crate) limit: Presence,
    pub(crate) workers: Presence,
    pub(crate) relaxers: Presence,
    pub(crate) size: Presence,
}

impl Presence {
    /// Whether an option that is given, or left out, is right.
    pub(crate) fn fits(self, value: Option<&str>) -> bool
        ensures { result ≡ fits self (option_map (λ s. s.now) value.entry) }
    {
        match self {
            Presence::Needed => value.is_some(),
            Presence::Allowed => true,
            Presence::Refused => value.is_none(),
        }
    }
}

impl Command {
    /// The command of a word.
    pub(crate) fn from_word(word: &str) -> Option<Command>
        ensures { result ≡ command_of word.now }
    {
        match word {
            "plan" => Some(Command::Plan),
            "relax" => Some(Command::Relax),
            "validate" => Some(Command::Validate),
            "certify" => Some(Command::Certify),
            "generate" => Some(Command::Generate),
            "upgrade" => Some(Command::Upgrade),
            "adl" => Some(Command::Adl),
            "expand" => Some(Command::Expand),
            "optimal" => Some(Command::Optimal),
            "certify-cost" => Some(Command::CertifyCost),
            "steps" => Some(Command::Steps),
            "look" => Some(Command::Look),
            _ => None,
        }
    }

    /// What the command takes.
    pub(crate) fn options(self) -> Options
        ensures { result ≡ record {
          domain = presence_of self (codes "domain");
          problem = presence_of self (codes "problem");
          plan = presence_of self (codes "plan");
          certificate = presence_of self (codes "certificate");
          limit = presence_of self (codes "limit");
          workers = presence_of self (codes "workers");
          relaxers = presence_of self (codes "relaxers");
          size = presence_of self (codes "size");
        } }
    {
        let pair = Options {
            domain: Presence::Needed,
            problem: Presence::Needed,
            plan: Presence::Refused,
            certificate: Presence::Refused,
            limit: Presence::Refused,
            workers: Presence::Refused,
            relaxers: Presence::Refused,
            size: Presence::Refused,
        };
        match self {
            Command::Plan | Command::Adl => Options {
                limit: Presence::Allowed,
                workers: Presence::Allowed,
                relaxers: Presence::Allowed,
                ..pair
            },
            Command::Relax | Command::Look => Options {
                relaxers: Presence::Allowed,
                ..pair
            },
            Command::Validate | Command::Steps => Options {
                plan: Presence::Needed,
                ..pair
            },
            Command::Certify | Command::Upgrade | Command::CertifyCost => Options {
                certificate: Presence::Needed,
                ..pair
            },
            Command::Generate => Options {
                domain: Presence::Refused,
                problem: Presence::Refused,
                size: Presence::Needed,
                limit: Presence::Allowed,
                ..pair
            },
            Command::Optimal => Options {
                limit: Presence::Allowed,
                workers: Presence::Allowed,
                ..pair
            },
            Command::Expand => pair,
        }
    }
}
