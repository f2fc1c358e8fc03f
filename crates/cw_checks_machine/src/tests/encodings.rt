// The bytes of instructions, by an independent assembler.

ghost use Rattle.std.specs.Prelude.{◌≤◌, ◌<◌};

use crate::tests::assembly::is_assembly;
use cw_dec86::{Decoded, decode};
use cw_enc86::encode;
use std::test::*;

#[test]
fn encodings(rt: HostRuntime) {
    for line in ENCODINGS.lines() {
        let Some((digits, text)) = line.split_once(' ') else {
            panic!(rt; "{line}");
        };
        let (bytes, size) = bytes_of(digits.as_bytes());
        let bytes = &bytes[..size];
        match decode(bytes) {
            Decoded::Done { instr, length } => {
                let mut out = [0; 7];
                let written = encode(&instr, &mut out);
                let is_same = usize::from(length) == size && &out[..written] == bytes;
                assert!(rt; is_same && is_assembly(&instr, text), "{line}");
            }
            Decoded::NeedMore => assert!(rt; text == "NeedMore", "{line}"),
            Decoded::Unknown => assert!(rt; text == "Unknown", "{line}"),
        }
    }
}

/// The bytes that hexadecimal digits tell, and how many.
fn bytes_of(digits: &[u8]) -> ([u8; 7], usize)
    ensures { result.1 ≤ 7 }
{
    let size = (digits.len() / 2).min(7);
    let mut bytes = [0; 7];
    for at in 0..size {
        bytes[at] = 16 * value_of(digits[2 * at]) + value_of(digits[2 * at + 1]);
    }
    (bytes, size)
}

fn value_of(digit: u8) -> u8
    ensures { result < 16 }
{
    match digit {
        b'0'..=b'9' => digit - b'0',
        b'A'..=b'F' => digit - b'A' + 10,
        _ => 0,
    }
}

/// Bytes, and what they are: every row of the table, every address form with and without the prefix, and the edges of
/// displacements and immediates. The first are the bytes that nasm 2.16.01 (`bits 16`, `cpu 8086`) makes of the text.
/// Those from 03C3 on it does not choose: ndisasm makes the text of them. The last are no instruction.
const ENCODINGS: &str = "\
8800 mov byte [bx+si],al
895800 mov word [byte bx+si+0x0],bx
8AB00000 mov dh,byte [word bx+si+0x0]
8B09 mov cx,word [bx+di]
886101 mov byte [byte bx+di+0x1],ah
89B90100 mov word [word bx+di+0x1],di
8A12 mov dl,byte [bp+si]
8B6A05 mov bp,word [byte bp+si+0x5]
888A7F00 mov byte [word bp+si+0x7f],cl
8923 mov word [bp+di],sp
8A7B7F mov bh,byte [byte bp+di+0x7f]
8B938000 mov dx,word [word bp+di+0x80]
882C mov byte [si],ch
894480 mov word [byte si-0x80],ax
8A9C3412 mov bl,byte [word si+0x1234]
8B35 mov si,word [di]
8855FF mov byte [byte di-0x1],dl
89ADFF7F mov word [word di+0x7fff],bp
8A46FE mov al,byte [byte bp-0x2]
8B9E0080 mov bx,word [word bp+0x8000]
8837 mov byte [bx],dh
894F40 mov word [byte bx+0x40],cx
8AA7FFFF mov ah,byte [word bx+0xffff]
8B1E0000 mov bx,word [0x0]
8826FFFF mov byte [0xffff],ah
892E3412 mov word [0x1234],bp
2E8A08 mov cl,byte [cs:bx+si]
2E8B6000 mov sp,word [cs:byte bx+si+0x0]
2E88B80000 mov byte [cs:word bx+si+0x0],bh
2E8911 mov word [cs:bx+di],dx
2E8A6901 mov ch,byte [cs:byte bx+di+0x1]
2E8B810100 mov ax,word [cs:word bx+di+0x1]
2E8822 mov byte [cs:bp+si],ah
2E897A05 mov word [cs:byte bp+si+0x5],di
2E8A927F00 mov dl,byte [cs:word bp+si+0x7f]
2E8B2B mov bp,word [cs:bp+di]
2E88437F mov byte [cs:byte bp+di+0x7f],al
2E899B8000 mov word [cs:word bp+di+0x80],bx
2E8A34 mov dh,byte [cs:si]
2E8B4C80 mov cx,word [cs:byte si-0x80]
2E88AC3412 mov byte [cs:word si+0x1234],ch
2E8905 mov word [cs:di],ax
2E8A5DFF mov bl,byte [cs:byte di-0x1]
2E8BB5FF7F mov si,word [cs:word di+0x7fff]
2E884EFE mov byte [cs:byte bp-0x2],cl
2E89A60080 mov word [cs:word bp+0x8000],sp
2E8A3F mov bh,byte [cs:bx]
2E8B5740 mov dx,word [cs:byte bx+0x40]
2E88B7FFFF mov byte [cs:word bx+0xffff],dh
2E890E0000 mov word [cs:0x0],cx
2E8A16FFFF mov dl,byte [cs:0xffff]
2E8B1E3412 mov bx,word [cs:0x1234]
0020 add byte [bx+si],ah
016800 add word [byte bx+si+0x0],bp
02B00000 add dh,byte [word bx+si+0x0]
0339 add di,word [bx+di]
01D8 add ax,bx
047F add al,0x7f
05FFFF add ax,strict word 0xffff
085901 or byte [byte bx+di+0x1],bl
09A10100 or word [word bx+di+0x1],sp
0A2A or ch,byte [bp+si]
0B7205 or si,word [byte bp+si+0x5]
09D7 or di,dx
0C00 or al,0x0
0D0000 or ax,strict word 0x0
10927F00 adc byte [word bp+si+0x7f],dl
111B adc word [bp+di],bx
12637F adc ah,byte [byte bp+di+0x7f]
13AB8000 adc bp,word [word bp+di+0x80]
11CE adc si,cx
14FF adc al,0xff
150080 adc ax,strict word 0x8000
180C sbb byte [si],cl
195480 sbb word [byte si-0x80],dx
1A9C3412 sbb bl,byte [word si+0x1234]
1B25 sbb sp,word [di]
19C5 sbb bp,ax
1C80 sbb al,0x80
1D3412 sbb ax,strict word 0x1234
2045FF and byte [byte di-0x1],al
218DFF7F and word [word di+0x7fff],cx
2256FE and dl,byte [byte bp-0x2]
239E0080 and bx,word [word bp+0x8000]
21FC and sp,di
247F and al,0x7f
25FF7F and ax,strict word 0x7fff
283F sub byte [bx],bh
294740 sub word [byte bx+0x40],ax
2A8FFFFF sub cl,byte [word bx+0xffff]
2B160000 sub dx,word [0x0]
29F3 sub bx,si
2C00 sub al,0x0
2DFFFF sub ax,strict word 0xffff
3036FFFF xor byte [0xffff],dh
313E3412 xor word [0x1234],di
2E3200 xor al,byte [cs:bx+si]
2E334800 xor cx,word [cs:byte bx+si+0x0]
31EA xor dx,bp
34FF xor al,0xff
350000 xor ax,strict word 0x0
2E38A80000 cmp byte [cs:word bx+si+0x0],ch
2E3931 cmp word [cs:bx+di],si
2E3A7901 cmp bh,byte [cs:byte bx+di+0x1]
2E3B810100 cmp ax,word [cs:word bx+di+0x1]
39E1 cmp cx,sp
3C80 cmp al,0x80
3D0080 cmp ax,strict word 0x8000
40 inc ax
48 dec ax
41 inc cx
49 dec cx
42 inc dx
4A dec dx
43 inc bx
4B dec bx
44 inc sp
4C dec sp
45 inc bp
4D dec bp
46 inc si
4E dec si
47 inc di
4F dec di
50 push ax
58 pop ax
51 push cx
59 pop cx
52 push dx
5A pop dx
53 push bx
5B pop bx
55 push bp
5D pop bp
56 push si
5E pop si
57 push di
5F pop di
7000 jo $+0x2
717F jno $+0x81
7280 jb $-0x7e
73FF jnb $+0x1
74FE jz $+0x0
75FD jnz $-0x1
7610 jbe $+0x12
773E jnbe $+0x40
7800 js $+0x2
797F jns $+0x81
7A80 jp $-0x7e
7BFF jnp $+0x1
7CFE jl $+0x0
7DFD jnl $-0x1
7E10 jle $+0x12
7F3E jnle $+0x40
2E800200 add byte [cs:bp+si],0x0
2E8142050000 add word [cs:byte bp+si+0x5],strict word 0x0
80C1FF add cl,0xff
81C1FFFF add cx,strict word 0xffff
2E808A7F007F or byte [cs:word bp+si+0x7f],0x7f
2E810BFF7F or word [cs:bp+di],strict word 0x7fff
80CA80 or dl,0x80
81CA0080 or dx,strict word 0x8000
2E80537F80 adc byte [cs:byte bp+di+0x7f],0x80
2E819380000080 adc word [cs:word bp+di+0x80],strict word 0x8000
80D301 adc bl,0x1
81D30100 adc bx,strict word 0x1
2E801CFF sbb byte [cs:si],0xff
2E815C80FFFF sbb word [cs:byte si-0x80],strict word 0xffff
80DC7F sbb ah,0x7f
81DCFF7F sbb sp,strict word 0x7fff
2E80A4341200 and byte [cs:word si+0x1234],0x0
2E81250000 and word [cs:di],strict word 0x0
80E5FF and ch,0xff
81E5FFFF and bp,strict word 0xffff
2E806DFF7F sub byte [cs:byte di-0x1],0x7f
2E81ADFF7FFF7F sub word [cs:word di+0x7fff],strict word 0x7fff
80EE80 sub dh,0x80
81EE0080 sub si,strict word 0x8000
2E8076FE80 xor byte [cs:byte bp-0x2],0x80
2E81B600800080 xor word [cs:word bp+0x8000],strict word 0x8000
80F701 xor bh,0x1
81F70100 xor di,strict word 0x1
2E803FFF cmp byte [cs:bx],0xff
2E817F40FFFF cmp word [cs:byte bx+0x40],strict word 0xffff
80F97F cmp cl,0x7f
81F9FF7F cmp cx,strict word 0x7fff
2E8387FFFF00 add word [cs:word bx+0xffff],byte +0x0
83C0FF add ax,byte -0x1
2E831600007F adc word [cs:0x0],byte +0x7f
83D180 adc cx,byte -0x80
2E831EFFFF80 sbb word [cs:0xffff],byte -0x80
83DA7F sbb dx,byte +0x7f
2E832E3412FF sub word [cs:0x1234],byte -0x1
83EB00 sub bx,byte +0x0
833805 cmp word [bx+si],byte +0x5
83FCFB cmp sp,byte -0x5
845000 test byte [byte bx+si+0x0],dl
85A00000 test word [word bx+si+0x0],sp
84EB test bl,ch
85C7 test di,ax
8631 xchg dh,byte [bx+di]
877101 xchg si,word [byte bx+di+0x1]
86DD xchg bl,ch
87F9 xchg di,cx
88EB mov bl,ch
89C7 mov di,ax
89EC mov sp,bp
8D990100 lea bx,[word bx+di+0x1]
8D22 lea sp,[bp+si]
2E8D7E80 lea di,[cs:byte bp-0x80]
8D06FFFF lea ax,[0xffff]
90 xchg ax,ax
91 xchg ax,cx
92 xchg ax,dx
93 xchg ax,bx
94 xchg ax,sp
95 xchg ax,bp
96 xchg ax,si
97 xchg ax,di
98 cbw
99 cwd
9C pushf
9D popf
9E sahf
9F lahf
A00000 mov al,[0x0]
A10000 mov ax,[0x0]
A20000 mov [0x0],al
A30000 mov [0x0],ax
2EA00000 mov al,[cs:0x0]
2EA10000 mov ax,[cs:0x0]
2EA20000 mov [cs:0x0],al
2EA30000 mov [cs:0x0],ax
A0FFFF mov al,[0xffff]
A1FFFF mov ax,[0xffff]
A2FFFF mov [0xffff],al
A3FFFF mov [0xffff],ax
2EA0FFFF mov al,[cs:0xffff]
2EA1FFFF mov ax,[cs:0xffff]
2EA2FFFF mov [cs:0xffff],al
2EA3FFFF mov [cs:0xffff],ax
A03412 mov al,[0x1234]
A13412 mov ax,[0x1234]
A23412 mov [0x1234],al
A33412 mov [0x1234],ax
2EA03412 mov al,[cs:0x1234]
2EA13412 mov ax,[cs:0x1234]
2EA23412 mov [cs:0x1234],al
2EA33412 mov [cs:0x1234],ax
A800 test al,0x0
A880 test al,0x80
A8FF test al,0xff
A90000 test ax,0x0
A90080 test ax,0x8000
A9FFFF test ax,0xffff
B000 mov al,0x0
B101 mov cl,0x1
B27F mov dl,0x7f
B380 mov bl,0x80
B4FF mov ah,0xff
B555 mov ch,0x55
B6AA mov dh,0xaa
B710 mov bh,0x10
B80000 mov ax,0x0
B90100 mov cx,0x1
BAFF7F mov dx,0x7fff
BB0080 mov bx,0x8000
BCFFFF mov sp,0xffff
BD3412 mov bp,0x1234
BEFF00 mov si,0xff
BF0001 mov di,0x100
C20000 ret 0x0
C20600 ret 0x6
C20080 ret 0x8000
C2FFFF ret 0xffff
C3 ret
C6420500 mov byte [byte bp+si+0x5],0x0
C7827F000000 mov word [word bp+si+0x7f],0x0
C6037F mov byte [bp+di],0x7f
C7437FFF7F mov word [byte bp+di+0x7f],0x7fff
C683800080 mov byte [word bp+di+0x80],0x80
C7040080 mov word [si],0x8000
C64480FF mov byte [byte si-0x80],0xff
C7843412FFFF mov word [word si+0x1234],0xffff
D005 rol byte [di],1
D345FF rol word [byte di-0x1],cl
D2C0 rol al,cl
D1C0 rol ax,1
D08DFF7F ror byte [word di+0x7fff],1
D34EFE ror word [byte bp-0x2],cl
D2C9 ror cl,cl
D1C9 ror cx,1
D0960080 rcl byte [word bp+0x8000],1
D317 rcl word [bx],cl
D2D2 rcl dl,cl
D1D2 rcl dx,1
D05F40 rcr byte [byte bx+0x40],1
D39FFFFF rcr word [word bx+0xffff],cl
D2DB rcr bl,cl
D1DB rcr bx,1
D0260000 shl byte [0x0],1
D326FFFF shl word [0xffff],cl
D2E4 shl ah,cl
D1E4 shl sp,1
D02E3412 shr byte [0x1234],1
2ED328 shr word [cs:bx+si],cl
D2ED shr ch,cl
D1ED shr bp,1
2ED07800 sar byte [cs:byte bx+si+0x0],1
2ED3B80000 sar word [cs:word bx+si+0x0],cl
D2FE sar dh,cl
D1FE sar si,1
E000 loopnz $+0x2
E17F loopz $+0x81
E280 loop $-0x7e
E3FF jcxz $+0x1
E400 in al,0x0
E600 out 0x0,al
E410 in al,0x10
E610 out 0x10,al
E4FF in al,0xff
E6FF out 0xff,al
E80000 call $+0x3
E80002 call $+0x203
E80080 call $-0x7ffd
E8FFFF call $+0x2
E90000 jmp near $+0x3
E9FC7F jmp near $+0x7fff
E90080 jmp near $-0x7ffd
E9FFFF jmp near $+0x2
EB00 jmp short $+0x2
EB7F jmp short $+0x81
EB80 jmp short $-0x7e
EBFF jmp short $+0x1
F4 hlt
F5 cmc
F8 clc
F9 stc
2EF60100 test byte [cs:bx+di],0x0
2EF741010000 test word [cs:byte bx+di+0x1],0x0
2EF68101007F test byte [cs:word bx+di+0x1],0x7f
2EF702FF7F test word [cs:bp+si],0x7fff
2EF6420580 test byte [cs:byte bp+si+0x5],0x80
2EF7827F000080 test word [cs:word bp+si+0x7f],0x8000
2EF603FF test byte [cs:bp+di],0xff
2EF7437FFFFF test word [cs:byte bp+di+0x7f],0xffff
F6C201 test dl,0x1
F7C40100 test sp,0x1
2EF6938000 not byte [cs:word bp+di+0x80]
2EF714 not word [cs:si]
F6D0 not al
F7D0 not ax
2EF65C80 neg byte [cs:byte si-0x80]
2EF79C3412 neg word [cs:word si+0x1234]
F6D9 neg cl
F7D9 neg cx
2EF625 mul byte [cs:di]
2EF765FF mul word [cs:byte di-0x1]
F6E2 mul dl
F7E2 mul dx
2EF6ADFF7F imul byte [cs:word di+0x7fff]
2EF76EFE imul word [cs:byte bp-0x2]
F6EB imul bl
F7EB imul bx
2EF6B60080 div byte [cs:word bp+0x8000]
2EF737 div word [cs:bx]
F6F4 div ah
F7F4 div sp
2EF67F40 idiv byte [cs:byte bx+0x40]
2EF7BFFFFF idiv word [cs:word bx+0xffff]
F6FD idiv ch
F7FD idiv bp
2EFE060000 inc byte [cs:0x0]
2EFF06FFFF inc word [cs:0xffff]
FEC7 inc bh
2EFE0E3412 dec byte [cs:0x1234]
FF08 dec word [bx+si]
FECF dec bh
FF5000 call word [byte bx+si+0x0]
FF900000 call word [word bx+si+0x0]
FFD7 call di
FFD4 call sp
FF21 jmp word [bx+di]
FF6101 jmp word [byte bx+di+0x1]
FFE7 jmp di
FFE4 jmp sp
FFB10100 push word [word bx+di+0x1]
FF32 push word [bp+si]
FF7205 push word [byte bp+si+0x5]
FFB27F00 push word [word bp+si+0x7f]
03C3 add ax,bx
02D9 add bl,cl
80C000 add al,0x0
0BC3 or ax,bx
0AD9 or bl,cl
80C87F or al,0x7f
13C3 adc ax,bx
12D9 adc bl,cl
80D080 adc al,0x80
1BC3 sbb ax,bx
1AD9 sbb bl,cl
80D8FF sbb al,0xff
23C3 and ax,bx
22D9 and bl,cl
80E000 and al,0x0
2BC3 sub ax,bx
2AD9 sub bl,cl
80E87F sub al,0x7f
33C3 xor ax,bx
32D9 xor bl,cl
80F080 xor al,0x80
3BC3 cmp ax,bx
3AD9 cmp bl,cl
80F8FF cmp al,0xff
8BEC mov bp,sp
8AD6 mov dl,dh
87CB xchg cx,bx
C6C005 mov al,0x5
C6C7FF mov bh,0xff
C7C33412 mov bx,0x1234
C7C70080 mov di,0x8000
FFC0 inc ax
FFC8 dec ax
FFF0 push ax
FFC1 inc cx
FFC9 dec cx
FFF1 push cx
FFC2 inc dx
FFCA dec dx
FFF2 push dx
FFC3 inc bx
FFCB dec bx
FFF3 push bx
FFC4 inc sp
FFCC dec sp
FFC5 inc bp
FFCD dec bp
FFF5 push bp
FFC6 inc si
FFCE dec si
FFF6 push si
FFC7 inc di
FFCF dec di
FFF7 push di
 NeedMore
2E NeedMore
81 NeedMore
8B46 NeedMore
2E8B NeedMore
2E8B06 NeedMore
2E8B0634 NeedMore
2EC706341234 NeedMore
B8 NeedMore
2E90 Unknown
2E2E Unknown
2E8BC0 Unknown
8DC0 Unknown
54 Unknown
5C Unknown
CD21 Unknown
8300 NeedMore
8308 Unknown
82 Unknown
F6C8 Unknown
D0F0 Unknown
FFF4 Unknown
FFF8 Unknown
FED0 Unknown
C6C8 Unknown
";
