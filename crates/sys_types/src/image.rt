//! The programs that processes run.
ghost use Rattle.std.specs.Prelude.{◌≡◌, ◌≤◌, ◌<◌, length};
ghost use Rattle.sys_types.specs.Images.{image_name, images};

/// How many programs there are.
pub const IMAGES: usize = 22;

/// A program: those of init(8), getty(8), login(1) and sh(1), and the tools.
#[derive(Clone, Copy, PartialEq, Eq)]
pub enum Image {
    Init,
    Getty,
    Login,
    Sh,
    Cat,
    Echo,
    Ls,
    Getfacl,
    Getfmac,
    Stty,
    Tty,
    Ps,
    Id,
    Mkdir,
    Rm,
    Chmod,
    Chown,
    Setfacl,
    Setfmac,
    Kill,
    Revoke,
    Halt,
}

impl Image {
    /// All programs, in the order of their variants.
    pub fn all() -> [Image; IMAGES]
        ensures { result ≡ images }
    {
        [
            Image::Init,
            Image::Getty,
            Image::Login,
            Image::Sh,
            Image::Cat,
            Image::Echo,
            Image::Ls,
            Image::Getfacl,
            Image::Getfmac,
            Image::Stty,
            Image::Tty,
            Image::Ps,
            Image::Id,
            Image::Mkdir,
            Image::Rm,
            Image::Chmod,
            Image::Chown,
            Image::Setfacl,
            Image::Setfmac,
            Image::Kill,
            Image::Revoke,
            Image::Halt,
        ]
    }

    /// The program's name, by which it stands in `/bin`: at most 7 bytes.
    pub fn name(self) -> &'static str
        ensures name { result.now ≡ image_name self }
        ensures most { length result.now ≤ 7 }
    {
        match self {
            Image::Init => "init",
            Image::Getty => "getty",
            Image::Login => "login",
            Image::Sh => "sh",
            Image::Cat => "cat",
            Image::Echo => "echo",
            Image::Ls => "ls",
            Image::Getfacl => "getfacl",
            Image::Getfmac => "getfmac",
            Image::Stty => "stty",
            Image::Tty => "tty",
            Image::Ps => "ps",
            Image::Id => "id",
            Image::Mkdir => "mkdir",
            Image::Rm => "rm",
            Image::Chmod => "chmod",
            Image::Chown => "chown",
            Image::Setfacl => "setfacl",
            Image::Setfmac => "setfmac",
            Image::Kill => "kill",
            Image::Revoke => "revoke",
            Image::Halt => "halt",
        }
    }
}
