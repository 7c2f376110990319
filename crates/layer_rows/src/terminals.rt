//! The texts of terminal settings (termios(4)).

use arrayvec::ArrayVec;
use std::alloc::Global;
use termios_core::{TEXT_ROOM, print_termios, read_termios};

/// Texts, and what is printed of the settings that they spell, if any.
pub const ROWS: &str = "
termios cooked -> icrnl,ixon,opost,onlcr,hupcl,isig,icanon,echo,echoe,echok,echoctl:3+28+127+21+4+255+17+19+26+1+0
termios raw -> clocal:3+28+127+21+4+255+17+19+26+1+0
termios icrnl,ixon,opost,onlcr,hupcl,isig,icanon,echo,echoe,echok,echoctl:3+28+127+21+4+255+17+19+26+1+0 -> icrnl,ixon,opost,onlcr,hupcl,isig,icanon,echo,echoe,echok,echoctl:3+28+127+21+4+255+17+19+26+1+0
termios clocal:3+28+127+21+4+255+17+19+26+1+0 -> clocal:3+28+127+21+4+255+17+19+26+1+0
termios -:0+0+0+0+0+0+0+0+0+0+0 -> -:0+0+0+0+0+0+0+0+0+0+0
# Another order.
termios tostop,echo,istrip:255+254+100+99+10+9+1+0+20+200+7 -> istrip,echo,tostop:255+254+100+99+10+9+1+0+20+200+7
# A word three times.
termios echo,noflsh,echo,echo:1+2+3+4+5+6+7+8+9+10+11 -> echo,noflsh:1+2+3+4+5+6+7+8+9+10+11
# Every flag, from the last to the first.
termios tostop,noflsh,echoctl,echonl,echok,echoe,echo,icanon,isig,hupcl,clocal,ocrnl,onlcr,opost,ixon,icrnl,igncr,inlcr,istrip:1+1+1+1+1+1+1+1+1+1+1 -> istrip,inlcr,igncr,icrnl,ixon,opost,onlcr,ocrnl,clocal,hupcl,isig,icanon,echo,echoe,echok,echonl,echoctl,noflsh,tostop:1+1+1+1+1+1+1+1+1+1+1
termios  -> none
termios - -> none
termios echo -> none
termios : -> none
termios -: -> none
termios Cooked -> none
termios cooked  -> none
termios cooked:0+0+0+0+0+0+0+0+0+0+0 -> none
# No words, an empty word, a dash among words, and unknown words.
termios :0+0+0+0+0+0+0+0+0+0+0 -> none
termios echo,:0+0+0+0+0+0+0+0+0+0+0 -> none
termios ,echo:0+0+0+0+0+0+0+0+0+0+0 -> none
termios -,echo:0+0+0+0+0+0+0+0+0+0+0 -> none
termios jump:0+0+0+0+0+0+0+0+0+0+0 -> none
termios echo,ECHO:0+0+0+0+0+0+0+0+0+0+0 -> none
termios echo, echoe:0+0+0+0+0+0+0+0+0+0+0 -> none
# Ten numbers, and twelve.
termios -:0+0+0+0+0+0+0+0+0+0 -> none
termios -:0+0+0+0+0+0+0+0+0+0+0+0 -> none
# A plus too many.
termios -:0+0+0+0+0+0+0+0+0+0+0+ -> none
termios -:+0+0+0+0+0+0+0+0+0+0+0 -> none
termios -:0++0+0+0+0+0+0+0+0+0 -> none
# No byte in decimal without leading zeros.
termios -:256+0+0+0+0+0+0+0+0+0+0 -> none
termios -:0+0+0+0+0+0+0+0+0+0+1000 -> none
termios -:00+0+0+0+0+0+0+0+0+0+0 -> none
termios -:0+0+07+0+0+0+0+0+0+0+0 -> none
termios -:0+0+0+0+0x1+0+0+0+0+0+0 -> none
# A second colon.
termios -:0+0+0+0+0+0+0+0+0+0+0: -> none
";

/// What is printed of the settings of a text.
pub fn told(alloc: Global, text: &str) -> Option<Vec<u8>> {
    match read_termios(text.as_bytes()) {
        Some(termios) => {
            let mut out: ArrayVec<u8, TEXT_ROOM> = ArrayVec::new();
            print_termios(&termios, &mut out);
            Vec::from_slice(alloc, out.as_slice()).ok()
        }
        None => Vec::from_slice(alloc, b"none").ok(),
    }
}
